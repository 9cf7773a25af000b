// Bytes of a sheet, loaded to the front of an array.
ghost use Rattle.std.specs.Prelude.{◌≡◌, length, get_or};
ghost use Rattle.base.specs.Lists.{fill};

// Copies bytes to the front of a list; of more than the list holds, as many as it holds.
pub fn load_bytes(into: &mut [u8], bytes: &[u8])
    ensures { into.new ≡ fill (λ j. get_or bytes.now j 0) (length bytes.now) into.old }
{
    let n = bytes.len().min(into.len());
    into[..n].copy_from_slice(&bytes[..n]);
}
