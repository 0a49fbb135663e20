//! The arguments of any packet: none has more than five.

ghost use Rattle.std.specs.Prelude.{◌≡◌, ◌<◌, ◌≤◌, Some, length, map, slice_get};

/// Up to five arguments, in order.
#[derive(Clone, Copy)]
pub(crate) struct Texts<'a> {
    all: [&'a [u8]; 5],
    count: usize,
    ghost within: { count ≤ 5 },
}

/// The argument at an index, or no bytes if there is none.
#[inline(always)]
fn text_at<'a>(texts: &[&'a [u8]], i: usize) -> &'a [u8]
    ensures { i < length texts.now → slice_get texts.now i ≡ Some result }
{
    if i < texts.len() { texts[i] } else { b"" }
}

impl<'a> Texts<'a> {
    ghost use Rattle.gm_packet.specs.Texts.{texts_of};

    #[inline(always)]
    pub(crate) fn of(texts: &[&'a [u8]]) -> Self
        requires { length texts.now ≤ 5 }
        ensures { texts_of result ≡ map (λ text. text.now) texts.now }
    {
        Texts {
            all: [
                text_at(texts, 0),
                text_at(texts, 1),
                text_at(texts, 2),
                text_at(texts, 3),
                text_at(texts, 4),
            ],
            count: texts.len(),
        }
    }

    /// The arguments as a slice.
    #[inline(always)]
    pub(crate) fn as_slice(&self) -> &[&'a [u8]]
        ensures { map (λ text. text.now) result.now ≡ texts_of self.now }
    {
        &self.all[..self.count]
    }
}
