// The exports of `c_face`, one for each of its functions, under the same name and the same clauses: the archive that C and Rust programs link.
#![tactic(auto)]

ghost use Rattle.c_face.specs.Face.{PrepareCalled, CheckCalled, SearchCalled};

// The preparer. Numbers: rows, columns.
#[unsafe(no_mangle)]
pub extern "C" fn finder_prepare(
    numbers: &[u32],
    values: &[f64],
    order: &mut [u16],
    cuts: &mut [u16],
    counts: &mut [u16],
    answer: &mut [u64],
)
    ensures { PrepareCalled numbers.now values.now order.old cuts.old counts.old answer.old
        order.new cuts.new counts.new answer.new }
{
    c_face::finder_prepare(numbers, values, order, cuts, counts, answer);
}

// The input check. Numbers: rows, columns, labels, support, gap, error, bound.
#[unsafe(no_mangle)]
pub extern "C" fn finder_check(
    numbers: &[u32],
    values: &[f64],
    codes: &[u8],
    order: &[u16],
    cuts: &[u16],
    counts: &[u16],
    scratch: &mut [u32],
    answer: &mut [u64],
)
    ensures { CheckCalled numbers.now values.now codes.now order.now cuts.now counts.now scratch.old answer.old
        scratch.new answer.new }
{
    c_face::finder_check(numbers, values, codes, order, cuts, counts, scratch, answer);
}

// The search. Numbers: rows, columns, labels, support, gap, error, bound.
#[unsafe(no_mangle)]
pub extern "C" fn finder_search(
    numbers: &[u32],
    values: &[f64],
    codes: &[u8],
    order: &[u16],
    cuts: &[u16],
    counts: &[u16],
    scratch: &mut [u32],
    answer: &mut [u64],
)
    ensures { SearchCalled numbers.now values.now codes.now order.now cuts.now counts.now scratch.old answer.old
        scratch.new answer.new }
{
    c_face::finder_search(numbers, values, codes, order, cuts, counts, scratch, answer);
}
