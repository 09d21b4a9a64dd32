// What each refusal of the reader says, and what to do about it.

pub fn fault(refusal: u8) -> &'static str {
    match refusal {
        1 => "the file ends too early",
        2 => "what stands there is no known record, or is out of order",
        3 => "the file is not of edition 1",
        4 => "a name is not 1 to 24 letters, digits and underscores, or has a digit first",
        5 => "the names do not ascend, or one stands twice",
        6 => "the rule has more than 128 names or more than 512 nodes",
        7 => "an operator, a slot or the number of a name is out of range",
        8 => "a node refers to one that does not stand before it",
        9 => "a node refers to one of the wrong sort",
        10 => "the rule is nested more than 64 deep",
        11 => "two nodes refer to the same one",
        12 => "the end record's count of nodes is wrong, or something follows it",
        13 => "there is no condition, or there is a node that no other refers to",
        _ => "",
    }
}

// What the person who sent the file can do.
pub fn advice(refusal: u8) -> &'static str {
    match refusal {
        1 => "it was cut on its way: save or send it again from the editor.",
        2 => "check that this is the right file, and that the editor is not newer.",
        3 => "have the editor write edition 1, the only one that is read here.",
        4 => "spell the name differently in the editor, and save the rule again.",
        6 => "split the rule into two smaller ones.",
        10 => "nest the rule less deeply; a list counts one for each of its elements.",
        5 | 7 | 8 | 9 | 11 | 12 | 13 => {
            "the editor is at fault: save the rule again, or report this line."
        }
        _ => "",
    }
}
