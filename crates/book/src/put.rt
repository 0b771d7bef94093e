// The page that answers are written on.
ghost use Rattle.std.specs.Prelude.{length};
ghost use Rattle.book.specs.Put.{HasRoom, Writes};

// A room, and the place in it up to which it is written. What is left of it is no fact of the type, since a page fills up: each
// function that writes asks for the room that it needs.
#[derive(Drop)]
pub(crate) struct Page<'a> {
    pub(crate) room: &'a mut [u8],
    pub(crate) end: usize,
}

impl Page<'_> {
    // Writes the text behind what is written.
    pub(crate) fn text(&mut self, text: &[u8])
        requires { HasRoom self.old (length text.now) }
        ensures { Writes self.old text.now self.new }
    {
        let at = self.end;
        let n = octets::copy(text, &mut self.room[at..]);
        self.end = at + n;
    }
}
