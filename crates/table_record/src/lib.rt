// The table (T) as it is stored: flat bytes for the types, flat bytes for the broader links of the categories, and the counts. Records are read here and stored
// by crate `table_store`: these two alone know where in the bytes a record stands. Contracts speak of the list of records that the bytes hold
// (specs/Layout.antt).
#![tactic(auto)]

ghost use Rattle.std.specs.Prelude.{◌≡◌, ℕ, suc, ◌+◌, ◌*◌, ◌≤◌, ◌<◌, length, get_or};
ghost use Rattle.spec_model.specs.Table.{Kind as Kindᵐ};
ghost use Rattle.spec_model.specs.Table.{permit, max_methods, max_categories, max_types};
ghost use Rattle.spec_model.specs.Records.{argument_slots, kind_code};
ghost use Rattle.spec_model.specs.Check.{no_raw_type, no_raw_links, state_of, kind_of};
ghost use Rattle.table_record.specs.Store.{types_in, links_in, raw_method, raw_of, raw_in, head_of, raw_links, type_size, head_size, method_size};
ghost use Rattle.table_record.specs.Store.{kind_is, kind_byte};
ghost use Rattle.table_record.specs.Store.{ref_as, ref_in, may_stand_as, with_count, empty_counts, empty_method, empty_type, empty_types, empty_links};

// The bytes of the types of a table, and of its broader links: those of category 0, which names none, are there too.
pub const TYPE_BYTES: usize = Counts::TYPES * TypeRec::BYTES;

pub const LINK_BYTES: usize = (Counts::CATEGORIES + 1) * Links::BYTES;

// How many of each kind a table has. In a table handed in a count may be any number.
#[derive(Clone, Copy)]
pub struct Counts {
    pub subjects: usize,
    pub methods: usize,
    pub cats: usize,
    pub sheet: usize,
    pub types: usize,
}

// The limits of a table, of the arguments of a signature, and of what a category names.
impl Counts {
    pub const SUBJECTS: usize = 16;

    pub const METHODS: usize = 16;

    pub const CATEGORIES: usize = 31;

    pub const SHEET_TYPES: usize = 48;

    pub const TYPES: usize = 128;

    pub const ARGUMENTS: usize = 4;

    pub const BROADER: usize = 2;

    // the counts of a table that holds nothing
    pub fn empty() -> Self
        ensures { result ≡ empty_counts }
    {
        Self {
            subjects: 0,
            methods: 0,
            cats: 0,
            sheet: 0,
            types: 0,
        }
    }

    // the same with so many types
    pub fn with_types(self, types: usize) -> Self
        ensures { result ≡ with_count self types }
    {
        Self { types, ..self }
    }
}

// A method of a type: the state's code, and the signature. `count` arguments are used; `answer` is 0 for none, else the type's number plus 1.
// Kept: bytes and no enums, Options or slices, since those of a table handed in may hold any number (H1 to H8; H15 for what is not looked at).
#[derive(Clone, Copy)]
pub struct Method {
    pub state: u8,
    pub count: u8,
    pub args: [u8; Method::SLOTS],
    pub answer: u8,
}

// The argument slots of a record, its bytes, and the codes of the four states.
impl Method {
    pub const SLOTS: usize = 4;

    pub const BYTES: usize = 7;

    pub const DENIED: u8 = 0;

    pub const OPTIONAL: u8 = 1;

    pub const AVAIL: u8 = 2;

    pub const UNAVAIL: u8 = 3;

    // denied, without a signature
    pub fn empty() -> Self
        ensures { result ≡ empty_method }
    {
        Self {
            state: Method::DENIED,
            count: 0,
            args: [0u8; Method::SLOTS],
            answer: 0,
        }
    }

    // what argument slot i holds, whether it is used or not
    pub fn argument(self, i: usize) -> usize
        requires { i < argument_slots }
        ensures { (result ≡ get_or self.args i 0) × (result < 256) × (length self.args ≡ argument_slots) }
    {
        usize::from(self.args[i])
    }
}

// A type without its methods: codes of representation, category and own; of a derived type its kind, left and right, else 0.
// Kept: bytes and no enums, since those of a table handed in may hold any number (H1 to H8).
#[derive(Clone, Copy)]
pub struct Head {
    pub rep: u8,
    pub cat: u8,
    pub own: u8,
    pub kind: u8,
    pub left: u8,
    pub right: u8,
}

// The numbers of a head, the spare bytes behind them, all of its bytes, the codes of the three representations, and of own=yes.
impl Head {
    pub const NUMBERS: usize = 6;

    pub const SPARE: usize = 10;

    pub const BYTES: usize = Head::NUMBERS + Head::SPARE;

    pub const REF: u8 = 0;

    pub const W32: u8 = 1;

    pub const W64: u8 = 2;

    pub const OWN: u8 = 1;
}

// A type.
#[derive(Clone, Copy)]
pub struct TypeRec {
    pub head: Head,
    pub methods: [Method; Counts::METHODS],
}

impl TypeRec {
    // the bytes of a record
    pub const BYTES: usize = 128;

    // a reference type of no category that denies every method
    pub fn empty() -> Self
        ensures { result ≡ empty_type }
    {
        Self {
            head: Head {
                rep: Head::REF,
                cat: 0,
                own: 0,
                kind: 0,
                left: 0,
                right: 0,
            },
            methods: [Method::empty(); Counts::METHODS],
        }
    }
}

// The kinds of derived types. In a type's bytes a kind is a code; a code past the last is read as Closed (B5).
#[derive(Clone, Copy, Debug, PartialEq, Eq)]
pub enum Kind {
    Sub = 0,
    Sup = 1,
    Closed = 2,
}

impl Kind {
    pub fn code(self) -> u8
        ensures { (result ≡ kind_code (kind_is self)) × (kind_of result ≡ kind_is self) × (result < 3) }
    {
        self as u8
    }
}

impl From<u8> for Kind {
    fn from(code: u8) -> Self
        ensures { kind_is result ≡ kind_of code }
    {
        match code {
            0 => Kind::Sub,
            1 => Kind::Sup,
            _ => Kind::Closed,
        }
    }
}

// What a key may have for its kind: a kind, or any byte. The byte that a type stores for it, and the kind that it means.
pub trait KindCode: Copy {
    ghost code: { Self → ℕ };

    ghost meaning: { Self → Kindᵐ };

    fn stored(self) -> u8
        ensures { result ≡ code self };

    fn meant(self) -> Kind
        ensures { kind_is result ≡ meaning self };
}

impl KindCode for Kind {
    ghost code = { kind_byte };

    ghost meaning = { kind_is };

    fn stored(self) -> u8 {
        self.code()
    }

    fn meant(self) -> Kind {
        self
    }
}

// A byte is stored as it is, one past the last kind's too, and means what it is read as (B5).
impl KindCode for u8 {
    ghost code = { λ code. code };

    ghost meaning = { kind_of };

    fn stored(self) -> u8 {
        self
    }

    fn meant(self) -> Kind {
        Kind::from(self)
    }
}

// By which a derived type is known: its kind and the numbers of the two types that it is derived from.
#[derive(Clone, Copy)]
pub struct Key<K = Kind> {
    pub kind: K,
    pub left: usize,
    pub right: usize,
}

// The broader categories of a category: how many, and their numbers.
#[derive(Clone, Copy)]
pub struct Links {
    pub count: u8,
    pub first: u8,
    pub second: u8,
}

impl Links {
    // the bytes of a record
    pub const BYTES: usize = 3;
}

// Optional and avail permit a method.
pub fn permits(state: u8) -> bool
    ensures { result ≡ permit (state_of state) }
{
    matches!(state, Method::OPTIONAL | Method::AVAIL)
}

// Bytes for the types of an empty table, and for its links.
pub fn empty_types() -> [u8; TYPE_BYTES]
    ensures { result ≡ empty_types }
{
    [0u8; TYPE_BYTES]
}

pub fn empty_links() -> [u8; LINK_BYTES]
    ensures { result ≡ empty_links }
{
    [0u8; LINK_BYTES]
}

// The broader categories of category k.
pub fn get_links(l: &[u8; LINK_BYTES], k: usize) -> Links
    requires { k < suc max_categories }
    ensures { raw_links result ≡ get_or (links_in l.now) k no_raw_links }
{
    let at = k * Links::BYTES;
    Links {
        count: l[at],
        first: l[at + 1],
        second: l[at + 2],
    }
}

// Type i without its methods.
pub fn get_head(b: &[u8; TYPE_BYTES], i: usize) -> Head
    requires { i < max_types }
    ensures { result ≡ head_of (get_or (types_in b.now) i no_raw_type) }
{
    let at = i * TypeRec::BYTES;
    Head {
        rep: b[at],
        cat: b[at + 1],
        own: b[at + 2],
        kind: b[at + 3],
        left: b[at + 4],
        right: b[at + 5],
    }
}

// Where the bytes of method j of type i begin.
fn method_at(i: usize, j: usize) -> usize
    requires { (i < max_types) × (j < max_methods) }
    ensures { result ≡ i * type_size + head_size + j * method_size }
{
    i * TypeRec::BYTES + Head::BYTES + j * Method::BYTES
}

// Method j of type i.
pub fn get_method(b: &[u8; TYPE_BYTES], i: usize, j: usize) -> Method
    requires { (i < max_types) × (j < max_methods) }
    ensures { raw_method result ≡ raw_in b.now i j }
{
    let at = method_at(i, j);
    Method {
        state: b[at],
        count: b[at + 1],
        args: [b[at + 2], b[at + 3], b[at + 4], b[at + 5]],
        answer: b[at + 6],
    }
}

// The fields of method j of type i, each by itself: who needs few of them does not pay for a record. The code of the state.
pub fn method_state(b: &[u8; TYPE_BYTES], i: usize, j: usize) -> u8
    requires { (i < max_types) × (j < max_methods) }
    ensures { result ≡ (raw_in b.now i j).state }
{
    b[method_at(i, j)]
}

// How many arguments are used.
pub fn method_count(b: &[u8; TYPE_BYTES], i: usize, j: usize) -> u8
    requires { (i < max_types) × (j < max_methods) }
    ensures { result ≡ (raw_in b.now i j).count }
{
    b[method_at(i, j) + 1]
}

// What argument slot k holds, whether it is used or not.
pub fn method_argument(b: &[u8; TYPE_BYTES], i: usize, j: usize, k: usize) -> u8
    requires { (i < max_types) × (j < max_methods) × (k < argument_slots) }
    ensures { result ≡ get_or (raw_in b.now i j).args k 0 }
{
    b[method_at(i, j) + 2 + k]
}

// 0 for no answer, else the number of its type plus 1.
pub fn method_answer(b: &[u8; TYPE_BYTES], i: usize, j: usize) -> u8
    requires { (i < max_types) × (j < max_methods) }
    ensures { result ≡ (raw_in b.now i j).answer }
{
    b[method_at(i, j) + 6]
}

// Whether type i is a reference type.
pub fn is_ref(b: &[u8; TYPE_BYTES], i: usize) -> bool
    requires { i < max_types }
    ensures { result ≡ ref_as (get_or (types_in b.now) i no_raw_type) }
{
    get_head(b, i).rep == Head::REF
}

// Whether t names a reference type of the first n.
pub fn names_ref(b: &[u8; TYPE_BYTES], n: usize, t: usize) -> bool
    requires { n ≤ max_types }
    ensures { result ≡ ref_in n b.now t }
{
    t < n && is_ref(b, t)
}

// Whether type i may stand in a signature: a type without own, which a number type always is.
pub fn may_stand(b: &[u8; TYPE_BYTES], i: usize) -> bool
    requires { i < max_types }
    ensures { result ≡ may_stand_as (get_or (types_in b.now) i no_raw_type) }
{
    let h = get_head(b, i);
    h.rep != Head::REF || h.own != Head::OWN
}

// Type i.
pub fn get_type(b: &[u8; TYPE_BYTES], i: usize) -> TypeRec
    requires { i < max_types }
    ensures is { raw_of result ≡ get_or (types_in b.now) i no_raw_type }
    ensures shape { length result.methods ≡ max_methods }
{
    let mut methods = [Method::empty(); Counts::METHODS];
    for j in 0..Counts::METHODS {
        methods[j] = get_method(b, i, j);
    }
    TypeRec {
        head: get_head(b, i),
        methods,
    }
}
