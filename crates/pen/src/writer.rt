// A writer over a lent place, which counts on where the place is full.
#[derive(Drop)]
pub struct Writer<'a> {
    pub place: &'a mut [u8],
    pub len: usize,
}
