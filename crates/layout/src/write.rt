// Bytes put into a lent image.
ghost use Rattle.std.specs.Prelude.{◌≡◌};
ghost use Rattle.layout.specs.Write.{placed, wrote_for_c};

// What writing a sheet gives, as C sees it and so with its answer as a number: on a refusal the length is 0.
#[repr(C)]
#[derive(Clone, Copy)]
pub struct Wrote {
    pub answer: u32,
    pub place: usize,
    pub length: usize,
}

// What a writer settles, the sheet's length or what refuses, as C sees it.
pub fn wrote_for_c(wrote: Result<usize, base::Verdict>) -> Wrote
    ensures { result ≡ wrote_for_c wrote }
{
    match wrote {
        Ok(length) => Wrote {
            answer: 0,
            place: 0,
            length,
        },
        Err(v) => Wrote {
            answer: v.answer,
            place: v.place,
            length: 0,
        },
    }
}

// Puts `from` into the image from byte `at` on; where it does not fit, nothing. Byte by byte: `copy_from_slice` from a lent struct to the lent image calls `memmove`,
// a name that the archive for C would need from outside beside `memcpy` and `memset`.
pub fn put_bytes(image: &mut [u8], at: usize, from: &[u8])
    ensures { image.new ≡ placed image.old at from.now }
{
    if at <= image.len() && from.len() <= image.len() - at {
        for (j, x) in from.iter().enumerate() {
            image[at + j] = *x;
        }
    }
}
