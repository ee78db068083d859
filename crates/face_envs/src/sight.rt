//! Which of the faces are asked.
ghost use Rattle.std.specs.Prelude.{◌≡◌};
ghost use Rattle.face_envs.specs.Sight.{IsRising, sees};

/// All of the faces that are kept, or those at some places, each greater than the one before it.
#[derive(Clone, Copy, Debug)]
pub enum Seen<'a> {
    All,
    Places(&'a [usize]),
}

/// Whether a face is among them.
pub fn is_seen(seen: Seen<'_>, face: usize) -> bool
    requires { IsRising seen }
    ensures { result ≡ sees seen.entry face }
{
    match seen {
        Seen::All => true,
        Seen::Places(places) => places.binary_search(&face).is_ok(),
    }
}
