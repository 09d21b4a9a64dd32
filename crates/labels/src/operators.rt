// The operators of comparisons and of arithmetic, by their numbers in a record.

// Document 01 says that 0 is equality, and request W-207 that 1 is 'less' and 2 'at most'. Which of the others 3 to 5 are is our reading.
pub fn comparing(op: u8) -> &'static str {
    match op {
        0 => "==",
        1 => "<",
        2 => "<=",
        3 => ">",
        4 => ">=",
        5 => "!=",
        _ => "",
    }
}

// Our reading too: the order of the Rust's `ArithOp` (oracle/dogwood, ast.rs).
pub fn computing(op: u8) -> &'static str {
    match op {
        0 => "+",
        1 => "-",
        2 => "*",
        _ => "",
    }
}
