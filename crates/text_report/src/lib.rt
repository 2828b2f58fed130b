// The report of a source: document 01's seven lines.
#![tactic(auto)]

ghost use Rattle.std.specs.Prelude.{◌≡◌};
ghost use Rattle.text_lines.specs.Text.{written};
ghost use Rattle.text_report.specs.Report.{answer_lines, report_of};

use text_lines::{Answer, Line};
use translate_source::Translation;

// The seven lines of a translation's answer.
pub fn answer_lines(t: Translation) -> Line
    ensures { written result ≡ answer_lines t }
{
    text_lines::summary(Answer {
        status: t.status,
        place: t.place,
        tokens: t.tokens,
        rows: t.rows,
        data: t.data,
        depth: t.depth,
        code: t.code,
    })
}

// The report of a source: it is translated into buffers that have room for every source.
pub fn report(source: &[u8]) -> Line
    ensures { written result ≡ report_of source.now }
{
    let mut table = [0u32; 4096];
    let mut code = [0u8; 49408];
    answer_lines(translate_source::translate(source, &mut table, &mut code))
}
