// The kinds of records. The numbers, a record's first word, are those of include/eon.h. In contracts: specs/RecordKind.
ghost use Rattle.std.specs.Prelude.{◌≡◌};

#[derive(Clone, Copy, PartialEq, Eq)]
pub enum RecordKind {
    Identifier = 1,
    Number,
    String,
    List,
    Map,
    Variant,
    PrefixComment,
    SuffixComment,
    ClosingComment,
}

impl From<RecordKind> for u32 {
    ghost use Rattle.eon_spec.specs.RecordKind.{word_of};

    ghost from_gives = { λ k n. n ≡ word_of k };

    fn from(kind: RecordKind) -> u32 {
        kind as u32
    }
}

// As it is compared with a word of a table that was read, which is a usize there.
impl From<RecordKind> for usize {
    ghost use Rattle.eon_spec.specs.RecordKind.{word_of};

    ghost from_gives = { λ k n. n ≡ word_of k };

    fn from(kind: RecordKind) -> usize {
        kind as usize
    }
}
