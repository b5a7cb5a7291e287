// Numbers of keys, by which they are looked up.
ghost use Rattle.std.specs.Prelude.{◌≡◌, ◌<◌, map};
ghost use Rattle.heap_objects.specs.Hash.{hash_key, mix, mix_all};

use flow_base::Key;

fn mix(m: u64, n: u64) -> u64
    ensures { result ≡ mix m n }
{
    ((m % 4294967291) * 65537 + n % 4294967291) % 4294967291
}

/// Mixes in the code points of a text.
fn mix_points(m: u64, points: &[char]) -> u64
    ensures { result ≡ mix_all m points.now }
{
    let mut mixed = m;
    for point in points {
        mixed = mix(mixed, *point as u64);
    }
    mixed
}

#[cycle(hash)]
/// The number of a key. It is the same for the same key.
pub fn hash_key(key: &Key) -> u64
    ensures { result ≡ hash_key key.now }
{
    match key {
        Key::Nil => 1,
        Key::Int(n) => mix(2, (n.unsigned_abs() % 4294967291) as u64),
        Key::Text(text) => mix_points(3, text.as_slice()),
        Key::Tuple(parts) => mix_keys(4, parts.as_slice()),
    }
}

#[cycle(hash)]
fn mix_keys(m: u64, keys: &[Key]) -> u64
    ensures { result ≡ mix_all m (map hash_key keys.now) }
{
    let mut mixed = m;
    for key in keys {
        mixed = mix(mixed, hash_key(key));
    }
    mixed
}
