// What calls on a sheet answer.
use edges::rows::Placed;
use sheet::fault::SheetFault;

#[derive(Clone, Copy)]
pub enum Answer<R> {
    // Descended, set aside or resumed.
    Went,
    // Laid, and where the piece lies.
    Laid(Placed<R>),
    // Saved, in so many bytes.
    Saved(usize),
    // Refused, and nothing was changed.
    Refused(SheetFault<R>),
}
