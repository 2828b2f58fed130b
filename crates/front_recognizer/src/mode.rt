// The automaton's states without their trees.
#[derive(Clone, Copy)]
pub enum Mode {
    // before a specification or the process
    Front,
    // within a specification, as far as it was read
    VarRead,
    ArrayRead,
    ArrayNamed,
    ArrayOpened,
    ArraySized,
    ValRead,
    ValNamed,
    ValEquated,
    Specified,
    // in a process
    NeedProcess,
    BraceOpened,
    Target,
    TargetElement,
    HaveProcess,
    // in an expression
    NeedExpression,
    NeedOperand,
    NameRead,
    HaveOperand,
    // No program continues with the token. A mode, and no Option about an action: `decide` is one table over modes, this one's line too.
    Refused,
}
