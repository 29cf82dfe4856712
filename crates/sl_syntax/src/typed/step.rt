/// `++` or `--`.
#[derive(Clone, Copy)]
pub enum Step {
    Up,
    Down,
}

/// Whether an operator stands before its operand or behind it.
#[derive(Clone, Copy)]
pub enum Fix {
    Prefix,
    Postfix,
}
