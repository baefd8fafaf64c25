//! Values laid into a list.
ghost use Rattle.glyph.specs.Laying.{laid};
ghost use Rattle.std.specs.Prelude.{◌≡◌, [], ◌∷◌};

/// Stores a value, where the list has a place for it.
// The place is no part of a struct with the list: it comes with those of the other lists, also where none is lent.
pub fn lay<T: Copy>(list: &mut [T], at: usize, value: T)
    ensures { list.new ≡ laid at (value ∷ []) list.old }
{
    if at < list.len() {
        list[at] = value;
    }
}

/// Stores values from a place on, those that the list has places for.
pub fn lay_all<T: Copy>(list: &mut [T], at: usize, values: &[T])
    ensures { list.new ≡ laid at values.now list.old }
{
    lay_fitting(list, at, values);
}

// Apart from `lay_all`, since its proof needs answers: an edit of that one is then refused at its own place.
fn lay_fitting<T: Copy>(list: &mut [T], at: usize, values: &[T])
    ensures { list.new ≡ laid at values.now list.old }
{
    if at < list.len() {
        let count = values.len().min(list.len() - at);
        list[at..at + count].copy_from_slice(&values[..count]);
    }
}
