// Names: 1 to 12 capital letters; and a name as it stands in a place, with zeros to 12, its title.
ghost use Rattle.std.specs.Prelude.{length, ◌≡◌, ◌≤◌};
ghost use Rattle.working.specs.Shelves.{is_name, is_title, is_zero, letters_in, title_of};

// The bytes of a name in its place.
pub const NAME: usize = 12;

// A name as it stands there.
pub(crate) type Title = [u8; NAME];

// How many capital letters stand before anything else.
fn letters_in(bytes: &[u8]) -> usize
    ensures { (result ≡ letters_in bytes.now) × (result ≤ length bytes.now) }
{
    bytes
        .iter()
        .take_while(|byte| byte.is_ascii_uppercase())
        .count()
}

// Whether all bytes are zero. All are looked at, many at once: `all`, which leaves at the first that is not, looks at them one by one (measured).
pub(crate) fn is_zero(bytes: &[u8]) -> bool
    ensures { result ≡ is_zero bytes.now }
{
    bytes.iter().fold(true, |zero, byte| zero & (*byte == 0))
}

#[tactic(auto, unfolding(working::specs::Shelves::is_name))]
pub(crate) fn is_name(name: &[u8]) -> bool
    ensures { result ≡ is_name name.now }
{
    let length = name.len();
    (1 <= length) & (length <= NAME) & (letters_in(name) == length)
}

// Letters, one at least, and zeros.
#[tactic(auto, using(crate::proofs::Titles::to_end), unfolding(working::specs::Shelves::is_title))]
pub(crate) fn is_title(title: &Title) -> bool
    ensures { result ≡ is_title title.now }
{
    let letters = letters_in(title);
    (1 <= letters) & is_zero(&title[letters..])
}

pub(crate) fn title_of(name: &[u8]) -> Title
    requires { length name.now ≤ 12 }
    ensures { result ≡ title_of name.now }
{
    let mut title = [0u8; NAME];
    title[..name.len()].copy_from_slice(name);
    title
}
