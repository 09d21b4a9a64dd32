// What each rule of the list says to the person who writes the condition. To tie a name is what document 01 calls to restrict it: an event, a tp or an
// equality gives it a value.
// A line each for what is wrong, in a few words, since a line of the tree has to hold them; why that matters, as the end of the sentence; and how to mend it.
#[derive(Clone, Copy)]
pub struct Words {
    rule: u8,
    pub wrong: &'static str,
    pub why: &'static str,
    pub mend: &'static str,
}

const TABLE: [Words; 12] = [
    Words {
        rule: 20,
        wrong: "a sum or count may not stand here",
        why: "it can only be a side of a comparison",
        mend: "say `n == count ..` in a comparison, and use n here.",
    },
    Words {
        rule: 21,
        wrong: "arithmetic may not stand here",
        why: "it can only be a side of a comparison",
        mend: "say `n == a + b` in a comparison, and use n here.",
    },
    Words {
        rule: 22,
        wrong: "@ is a reserved word",
        why: "a rule cannot bind it to something else",
        mend: "choose another name, here and wherever the rule uses it.",
    },
    Words {
        rule: 23,
        wrong: "nothing in this `exists` ties @",
        why: "no event or value says which @ to try",
        mend: "use @ in an event or in @ == value inside it, not under `not` or `or`.",
    },
    Words {
        rule: 24,
        wrong: "@ is not in the sum's own `for` list",
        why: "only a name of that list can be summed",
        mend: "add @ to the `for` list, or sum a name that is in it.",
    },
    Words {
        rule: 25,
        wrong: "@ is used in here, and nothing binds it",
        why: "no `for` list and no `exists` has @",
        mend: "add @ to the `for` list, or put `exists @` around the comparison.",
    },
    Words {
        rule: 26,
        wrong: "the `where` part does not use @",
        why: "a name of the `for` list must be used there",
        mend: "use @ in the `where` part, or take it out of the `for` list.",
    },
    Words {
        rule: 27,
        wrong: "nothing in the `where` part ties @",
        why: "no event or value says which @ to take",
        mend: "use @ in an event or in @ == value there, not under `not` or `or`.",
    },
    Words {
        rule: 28,
        wrong: "nothing binds @",
        why: "the rule does not say which @ is meant",
        mend: "put `exists @` around the rule, or use a name that is bound.",
    },
    Words {
        rule: 30,
        wrong: "nothing before this equality ties @",
        why: "its other side needs @ first",
        mend: "to its left, joined by `and`, put an event with @, or @ == value.",
    },
    Words {
        rule: 31,
        wrong: "nothing before this ties @",
        why: "@ has no value here yet",
        mend: "to its left, joined by `and`, put an event with @, or @ == value.",
    },
    Words {
        rule: 32,
        wrong: "nothing ties @ left of this `since`",
        why: "no part before it, nor its right side",
        mend: "use @ in an event on its right side, or in one before it.",
    },
];

const NO_WORDS: Words = Words {
    rule: 0,
    wrong: "",
    why: "",
    mend: "",
};

// No words for a number that is no rule's.
pub fn words_of(rule: u8) -> Words {
    TABLE
        .into_iter()
        .find(|words| words.rule == rule)
        .unwrap_or(NO_WORDS)
}
