// How a threshold parts a column that is sorted by value: the rows before its cut go left, and no others.
ghost use Rattle.std.specs.Prelude.{◌≡◌};
ghost use Rattle.threshold.specs.Column.{count_left, LeftAtCut};

// How many of the values go left at a threshold.
fn sent_left(values: &[f64], threshold: f64) -> usize
    ensures { result ≡ count_left values.now threshold }
{
    values
        .iter()
        .filter(|value| crate::goes_left(**value, threshold))
        .count()
}

// How many of the values go left at the threshold between place `at` and the one before it; none where there are no such two places.
pub fn left_of_cut(values: &[f64], at: usize) -> usize
    ensures { LeftAtCut values.now at result }
{
    if at == 0 || values.len() <= at {
        return 0;
    }
    let threshold = crate::threshold_between(values[at - 1], values[at]);
    sent_left(values, threshold)
}
