// One column's lists: its rows in sorted order, and the places where its value rises.
ghost use Rattle.std.specs.Prelude.{◌≡◌, length};
ghost use Rattle.prepare.specs.Lists.{rows_in_order, cuts_along, padded, cut_slots, cut_count};
ghost use Rattle.prepare.specs.ListSteps.{Ordering, OneColumn};

use threshold::order::below;

// The places whose value is above the one before, and zeros after them; how many there are.
fn find_cuts(values: &[f64], order: &[u16], cuts: &mut [u16]) -> u16
    requires { Ordering values.now order.now cuts.old }
    ensures { (result ≡ length (cuts_along values.now order.now))
        × (cuts.new ≡ padded (length order.now) (cuts_along values.now order.now)) }
{
    let mut count: usize = 0;
    for i in 1..order.len() {
        if below(values, order[i - 1], order[i]) {
            cuts[count] = i as u16;
            count += 1;
        }
    }
    cuts[count..].fill(0);
    count as u16
}

// One column: its rows in sorted order, with its cut list as the second place for the sort, then its cuts and their number.
pub(crate) fn prepare_column(values: &[f64], order: &mut [u16], cuts: &mut [u16]) -> u16
    requires { OneColumn values.now order.old cuts.old }
    ensures { (result ≡ cut_count (length values.now) values.now)
        × (order.new ≡ rows_in_order (length values.now) values.now)
        × (cuts.new ≡ cut_slots (length values.now) values.now) }
{
    row_sort::sort(values, 0, order, cuts);
    find_cuts(values, order, cuts)
}
