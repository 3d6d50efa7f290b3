// The check of a table that is handed in, its first part: counts within their limits (H1), and broader links that fall (H5), for any bytes and any counts.
#![tactic(auto)]

ghost use Rattle.std.specs.Prelude.{◌≡◌, suc, ◌≤◌, ◌<◌, get_or};
ghost use Rattle.spec_model.specs.Table.{between, max_categories};
ghost use Rattle.spec_model.specs.Check.{no_raw_links};
ghost use Rattle.table_record.specs.Store.{links_in};
ghost use Rattle.table_check_links.specs.Parts.{counts_accepted, link_accepted, links_accepted};

use table_record::{Counts, LINK_BYTES};

// A count in its range.
fn within(low: usize, high: usize, n: usize) -> bool
    ensures { result ≡ between low high n }
{
    low <= n && n <= high
}

pub fn counts_fit(c: Counts) -> bool
    ensures { result ≡ counts_accepted c }
{
    within(1, Counts::SUBJECTS, c.subjects)
        && within(1, Counts::METHODS, c.methods)
        && c.cats <= Counts::CATEGORIES
        && within(1, Counts::SHEET_TYPES, c.sheet)
        && c.sheet <= c.types
        && c.types <= Counts::TYPES
}

// T6: category k names one or two categories below it.
fn link_fits(l: &[u8; LINK_BYTES], k: usize) -> bool
    requires { k < suc max_categories }
    ensures { result ≡ link_accepted k (get_or (links_in l.now) k no_raw_links) }
{
    let x = table_record::get_links(l, k);
    let count = usize::from(x.count);
    within(1, Counts::BROADER, count)
        && usize::from(x.first) < k
        && (count != 2 || usize::from(x.second) < k)
}

pub fn links_fit(l: &[u8; LINK_BYTES], cats: usize) -> bool
    requires { cats ≤ max_categories }
    ensures { result ≡ links_accepted cats (links_in l.now) }
{
    for k in 1..cats + 1 {
        if !link_fits(l, k) {
            return false;
        }
    }
    true
}
