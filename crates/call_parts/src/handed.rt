//! What a caller is handed back.

ghost use Rattle.std.specs.Prelude.{drop, length, ◌++◌, ◌<◌, ◌≡◌, ◌≤◌};
ghost use Rattle.call_parts.specs.Handed.{IsHanded, IsLeft};

/// A place of a caller for bytes.
#[repr(C)]
pub struct Place<'a> {
    /// Its room. What stands there before a call does not matter.
    pub bytes: &'a mut [u8],
    /// How many bytes there are for it, be there room for them or not.
    pub count: usize,
}

/// What a caller is handed back by a program.
#[repr(C)]
pub struct Reply<'a> {
    /// What is printed.
    pub output: Place<'a>,
    /// What is said on the error stream.
    pub errors: Place<'a>,
    /// What the file holds at the end that is wanted; nothing where there is none.
    pub file: Place<'a>,
}

/// Writes bytes to the front of a place, if there is room for them, and gives how many there are.
fn write(bytes: &[u8], place: &mut [u8]) -> usize
    ensures count { result ≡ length bytes.now }
    ensures fits { length bytes.now ≤ length place.old → place.new ≡ bytes.now ++ drop (length bytes.now) place.old }
    ensures short { length place.old < length bytes.now → place.new ≡ place.old }
{
    let count = bytes.len();
    if count <= place.len() {
        place[..count].copy_from_slice(bytes);
    }
    count
}

impl Place<'_> {
    /// Is handed bytes.
    pub(crate) fn take(&mut self, bytes: &[u8])
        ensures { IsHanded self.old self.new bytes.now }
    {
        self.count = write(bytes, self.bytes);
    }
}

impl Reply<'_> {
    /// Counts nothing.
    pub fn clear(&mut self)
        ensures { IsLeft self.old self.new }
    {
        self.output.count = 0;
        self.errors.count = 0;
        self.file.count = 0;
    }
}
