// The demands: see specs/.
