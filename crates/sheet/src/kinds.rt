// The kinds of lines: one table, in the order of a sheet. A kind is its place there. What adding one takes is in docs/DECISIONS.md.
ghost use Rattle.std.specs.Prelude.{◌≡◌, ◌==◌};
ghost use Rattle.std.specs.List.{position};
ghost use Rattle.sheet.specs.Kinds.{kind_at, letter, fields, limit, width, once, needed, kind_of, as_kind, cell_count};

pub const P: usize = 0;

pub const B: usize = P + 1;

pub const V: usize = B + 1;

pub const S: usize = V + 1;

pub const U: usize = S + 1;

pub const W: usize = U + 1;

pub const E: usize = W + 1;

pub const F: usize = E + 1;

pub const KINDS: usize = F + 1;

// The limits are this layer's alone: uses and reservations are many, the others few.
pub const FEW: usize = 128;

pub const MANY: usize = 256;

// Whether a sheet has exactly one line of a kind, at most one, or any number up to the kind's limit.
#[derive(Clone, Copy, Debug, PartialEq, Eq)]
pub enum Asked {
    ExactlyOne,
    AtMostOne,
    Any,
}

// A kind: its letter, how many fields a line has, how many lines a sheet may have, and what is asked of their number.
#[derive(Clone, Copy, Debug, PartialEq, Eq)]
pub struct Kind {
    pub letter: u8,
    pub fields: usize,
    pub limit: usize,
    pub asked: Asked,
}

pub const TABLE: [Kind; KINDS] = [
    Kind {
        letter: b'P',
        fields: 5,
        limit: 1,
        asked: Asked::ExactlyOne,
    },
    Kind {
        letter: b'B',
        fields: 3,
        limit: FEW,
        asked: Asked::Any,
    },
    Kind {
        letter: b'V',
        fields: 1,
        limit: FEW,
        asked: Asked::Any,
    },
    Kind {
        letter: b'S',
        fields: 6,
        limit: FEW,
        asked: Asked::Any,
    },
    Kind {
        letter: b'U',
        fields: 3,
        limit: MANY,
        asked: Asked::Any,
    },
    Kind {
        letter: b'W',
        fields: 1,
        limit: FEW,
        asked: Asked::Any,
    },
    Kind {
        letter: b'E',
        fields: 6,
        limit: MANY,
        asked: Asked::Any,
    },
    Kind {
        letter: b'F',
        fields: 3,
        limit: FEW,
        asked: Asked::Any,
    },
];

// How many cells a sheet needs: for each kind its fields times its limit. A constant has no loop yet, so each kind is named.
pub const CELLS: usize = TABLE[P].fields * TABLE[P].limit
    + TABLE[B].fields * TABLE[B].limit
    + TABLE[V].fields * TABLE[V].limit
    + TABLE[S].fields * TABLE[S].limit
    + TABLE[U].fields * TABLE[U].limit
    + TABLE[W].fields * TABLE[W].limit
    + TABLE[E].fields * TABLE[E].limit
    + TABLE[F].fields * TABLE[F].limit;

// The same, for the proofs: there the constant is a number.
pub(crate) fn cells_needed() -> usize
    ensures { result ≡ cell_count }
{
    CELLS
}

// The row of a kind; of what is no kind, one of zeros.
fn kind_at(k: usize) -> Kind
    ensures { result ≡ kind_at k }
{
    if k >= KINDS {
        return Kind {
            letter: 0,
            fields: 0,
            limit: 0,
            asked: Asked::Any,
        };
    }
    TABLE[k]
}

// The letter of a kind. This and its like read one field each of the table's row: one function that is told which would be no plainer.
pub(crate) fn letter_of(k: usize) -> u8
    ensures { result ≡ letter k }
{
    kind_at(k).letter
}

// How many fields a line of a kind has.
pub fn fields_of(k: usize) -> usize
    ensures { result ≡ fields k }
{
    kind_at(k).fields
}

// How many bytes a line of a kind has.
pub(crate) fn width_of(k: usize) -> usize
    ensures { result ≡ width k }
{
    2 + 11 * fields_of(k)
}

// How many lines of a kind a sheet may have.
pub(crate) fn limit_of(k: usize) -> usize
    ensures { result ≡ limit k }
{
    kind_at(k).limit
}

// Whether a sheet has no second line of a kind.
pub(crate) fn is_once(k: usize) -> bool
    ensures { result ≡ once k }
{
    match kind_at(k).asked {
        Asked::ExactlyOne | Asked::AtMostOne => true,
        Asked::Any => false,
    }
}

// Whether a sheet is not without a line of a kind.
pub(crate) fn is_needed(k: usize) -> bool
    ensures { result ≡ needed k }
{
    match kind_at(k).asked {
        Asked::ExactlyOne => true,
        Asked::AtMostOne | Asked::Any => false,
    }
}

// Where a letter first stands among some kinds.
fn place_of(kinds: &[Kind], c: u8) -> Option<usize>
    ensures { result ≡ position (λ x. x.letter == c) kinds.now }
{
    kinds.iter().position(|kind| kind.letter == c)
}

// The kind that a letter names.
pub(crate) fn kind_of(c: u8) -> Option<usize>
    ensures { result ≡ as_kind (kind_of c) }
{
    place_of(&TABLE, c)
}
