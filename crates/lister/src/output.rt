// The one call that writes. No contract can say what it does. So it asks for the part of the listing that comes next, which its caller
// shows, and only here is it said how far a listing is written: nobody else can make a `Written`.
ghost use Rattle.std.specs.Prelude.{◌≡◌, true};
ghost use Rattle.lister.specs.Listing.{listing_of};
ghost use Rattle.lister.specs.Running.{NextPart, HandedOver};

// How many bytes of a listing the writing call has taken, and whether it took all that it was given. A pair, since `HandedOver` and `Reached`
// (`specs/Running.antt`), which a signer reads, say how far a listing is written where the call fails, too.
#[derive(Clone, Copy)]
pub struct Written {
    at: usize,
    whole: bool,
}

impl Written {
    // Nothing was given yet.
    pub fn nothing_yet() -> Written
        ensures { (result.at ≡ 0) × (result.whole ≡ true) }
    {
        Written { at: 0, whole: true }
    }

    // Whether all that was given is taken.
    pub fn is_whole(self) -> bool
        ensures { result ≡ self.whole }
    {
        self.whole
    }

    // Gives the part of the listing of the bytes that comes next to the writing call.
    pub fn write_next(self, rt: &impl Print, bytes: &[u8], part: &[u8]) -> Written
        requires { NextPart (listing_of bytes.now) self part.now }
        ensures { HandedOver self part.now result }
    {
        let at = self.at;
        if rt.write_all(part).is_ok() {
            return Written {
                at: at + part.len(),
                whole: true,
            };
        }
        Written { at, whole: false }
    }
}
