// Reading from bytes in memory.
ghost use Rattle.std.specs.Prelude.{◌≡◌, ◌-◌, length, take, drop, min};

/// Copies bytes from `place` on, as many as there are and as `into` holds, and answers how many.
pub fn copy_from(bytes: &[u8], place: u64, into: &mut [u8]) -> usize
    ensures count { result ≡ min (length into.old) (length bytes.now - place) }
    ensures copied { take result into.new ≡ take result (drop place bytes.now) }
{
    let place = place as usize;
    if bytes.len() <= place {
        return 0;
    }
    let rest = &bytes[place..];
    let count = into.len().min(rest.len());
    into[..count].copy_from_slice(&rest[..count]);
    count
}
