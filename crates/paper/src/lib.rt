// The plain types that the code and the definitions share. The definitions themselves are in specs/.

#![tactic(auto)]

ghost use Rattle.std.specs.Prelude.{◌≡◌};
ghost use Rattle.paper.specs.declared.Unlisted.TheVariants.{Refused};

// A node's number and a name's: neither can stand for the other.
#[derive(Clone, Copy, PartialEq, Eq, PartialOrd, Ord, Debug)]
pub struct NodeNo(pub u16);

#[derive(Clone, Copy, PartialEq, Eq, PartialOrd, Ord, Debug)]
pub struct NameNo(pub u8);

// A slot: a name of the table, or a sigil by its number.
#[derive(Clone, Copy, PartialEq, Eq, Debug)]
pub enum Slot {
    Name(NameNo),
    Param(u8),
    Binder(u8),
}

// A node, with every field that its record has.
#[derive(Clone, Copy, PartialEq, Eq, Debug)]
pub enum Node {
    And(NodeNo, NodeNo),
    Or(NodeNo, NodeNo),
    Not(NodeNo),
    Formerly(NodeNo, u16),
    Previous(NodeNo, u16),
    Since(NodeNo, NodeNo, u16),
    Exists(Slot, u8, NodeNo),
    Comparison(u8, NodeNo, NodeNo),
    Predicate(u16, NodeNo),
    Refine(NodeNo, NodeNo),
    Tp(Slot),
    Call(u16),
    SigilRef(u16),
    Var(NameNo),
    Wildcard,
    Literal(u16),
    ScopeField(u16),
    ContextField(u16),
    ParamRef(u8),
    BinderRef(u8),
    Array(NodeNo),
    Arith(u8, NodeNo, NodeNo),
    Sum(Slot, NodeNo, NodeNo),
    Count(NodeNo, NodeNo),
    AggregateCall(u16),
    ListEnd,
    ArgumentCell(u16, NodeNo, NodeNo),
    ItemCell(NodeNo, NodeNo),
    BinderCell(Slot, u8, NodeNo),
}

// What accepted bytes hold: so many names and so many nodes.
#[derive(Clone, Copy, PartialEq, Eq, Debug)]
pub struct Counts {
    pub names: usize,
    pub nodes: usize,
}

// Bytes that the reader turns away: the number of their first fault, and where the record with it begins.
#[derive(Clone, Copy, PartialEq, Eq, Debug)]
pub struct Refusal {
    pub number: u8,
    pub offset: usize,
}

// Why an equality ties nothing: both its sides are bare variables, or neither is; or one is, and the other is a wildcard, or arithmetic that contains one.
#[derive(Clone, Copy, PartialEq, Eq, Debug)]
pub enum Reason {
    BothBare,
    NeitherBare,
    Wildcard,
    Arithmetic,
}

// What an equality ties: the variable on its left or on its right, or nothing, for a reason.
#[derive(Clone, Copy, PartialEq, Eq, Debug)]
pub enum Equality {
    Left(NameNo),
    Right(NameNo),
    Nothing(Reason),
}

// One unmet rule: its number, the node that it stands at, and the name that it is about, if it is about one.
#[derive(Clone, Copy, PartialEq, Eq, Debug)]
pub struct Finding {
    pub rule: u8,
    pub node: NodeNo,
    pub name: Option<NameNo>,
}

// Why no list was written: more entries are needed than there is room for, or the reader turned the bytes away.
#[derive(Clone, Copy, PartialEq, Eq, Debug)]
pub enum Unlisted {
    NoRoom { needed: usize },
    Refused(Refusal),
}

impl From<Refusal> for Unlisted {
    ghost from_gives = { λ refusal unlisted. unlisted ≡ Refused refusal };

    fn from(refusal: Refusal) -> Unlisted {
        Unlisted::Refused(refusal)
    }
}
