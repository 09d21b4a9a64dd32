// Why an equality ties nothing, and what to write instead.
use paper::Reason;

pub fn untied(reason: Reason) -> &'static str {
    match reason {
        Reason::BothBare => "both sides are names: put an event with each of them before it",
        Reason::NeitherBare => {
            "neither side is a name alone: put events with its names before it, or leave one name alone on a side"
        }
        Reason::Wildcard => "`*` stands for any value: write the value that is meant in its place",
        Reason::Arithmetic => {
            "`*` in arithmetic stands for any value: write the value that is meant in its place"
        }
    }
}
