// Whether every type that stands in a signature may stand there (T14), over the bytes of the types: the last test of a sheet (S13).
#![tactic(auto)]

ghost use Rattle.std.specs.Prelude.{◌≡◌, ◌≤◌, ◌<◌, get_or, take};
ghost use Rattle.spec_model.specs.Basics.{all};
ghost use Rattle.spec_model.specs.Check.{no_raw_type, method_of};
ghost use Rattle.spec_model.specs.Table.{max_methods, max_types};
ghost use Rattle.table_record.specs.Store.{raw_method, types_in, types_to};
ghost use Rattle.spec_sheet.specs.Sheet.{stands};
ghost use Rattle.sheet_read_signatures.specs.Signatures.{methods_of, stands_at, methods_stand, type_stands};

use table_record::{Method, TYPE_BYTES};

// Whether type a, if it is one of n, may stand in a signature.
fn stands_at(b: &[u8; TYPE_BYTES], n: usize, a: usize) -> bool
    requires { n ≤ max_types }
    ensures { result ≡ stands_at (types_in b.now) n a }
{
    n <= a || table_record::may_stand(b, a)
}

// Whether every argument of a signature may stand there.
fn args_stand(b: &[u8; TYPE_BYTES], n: usize, m: Method) -> bool
    requires { n ≤ max_types }
    ensures { result ≡ all (stands_at (types_in b.now) n) (take m.count m.args) }
{
    for i in 0..usize::from(m.count).min(Method::SLOTS) {
        if !stands_at(b, n, usize::from(m.args[i])) {
            return false;
        }
    }
    true
}

// Whether every type of a method's signature may stand there (T14).
fn method_stands(b: &[u8; TYPE_BYTES], n: usize, m: Method) -> bool
    requires { n ≤ max_types }
    ensures { result ≡ stands (stands_at (types_in b.now) n) (method_of (raw_method m)) }
{
    if !table_record::permits(m.state) {
        return true;
    }
    if !args_stand(b, n, m) {
        return false;
    }
    m.answer == 0 || stands_at(b, n, usize::from(m.answer) - 1)
}

// whether the signatures of type i do, of m methods
fn type_stands(b: &[u8; TYPE_BYTES], n: usize, m: usize, i: usize) -> bool
    requires { (n ≤ max_types) × (m ≤ max_methods) × (i < max_types) }
    ensures { result ≡ methods_stand (stands_at (types_in b.now) n) (methods_of m (get_or (types_in b.now) i no_raw_type)) }
{
    if !table_record::is_ref(b, i) {
        return true;
    }
    for j in 0..m {
        if !method_stands(b, n, table_record::get_method(b, i, j)) {
            return false;
        }
    }
    true
}

// whether those of the n types do
pub fn types_stand(b: &[u8; TYPE_BYTES], n: usize, m: usize) -> bool
    requires { (n ≤ max_types) × (m ≤ max_methods) }
    ensures { result ≡ all (type_stands (types_in b.now) n) (types_to m n n (types_in b.now)) }
{
    for i in 0..n {
        if !type_stands(b, n, m, i) {
            return false;
        }
    }
    true
}
