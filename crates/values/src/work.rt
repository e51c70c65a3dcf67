// A work buffer for values.
ghost use Rattle.values.specs.Slots.{Room};

// The buffer has a slot of so many bytes for each of so many levels of dictionaries, and one for a text.
#[derive(Drop)]
pub struct Work<'a> {
    pub bytes: &'a mut [u8],
    pub limit: usize,
    pub levels: usize,
    ghost room: { Room bytes.now limit levels },
}
