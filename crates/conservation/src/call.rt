// Calls on a sheet, as values.

#[derive(Clone, Copy)]
pub enum Call<'a> {
    Descend,
    Lay,
    SetAside,
    // Into the buffer that is lent for all saves.
    Save,
    // From the bytes of a file.
    Resume(&'a [u8]),
}
