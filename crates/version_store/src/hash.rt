// Numbers of locations and of versions, by which they are looked up.
ghost use Rattle.std.specs.Prelude.{◌≡◌, ◌<◌, map};
ghost use Rattle.version_store.specs.Hash.{hash_key, hash_loc, hash_version, mix, mix_all};

use flow_base::{Key, Loc};
use trace_events::Version;

fn mix(m: u64, n: u64) -> u64
    ensures { result ≡ mix m n }
{
    ((m % 4294967291) * 65537 + n % 4294967291) % 4294967291
}

/// Mixes in the code points of a text.
fn mix_points(m: u64, points: &[char]) -> u64
    ensures { result ≡ mix_all m points.now }
{
    let mut mixed = m;
    for point in points {
        mixed = mix(mixed, *point as u64);
    }
    mixed
}

#[cycle(hash)]
fn hash_key(key: &Key) -> u64
    ensures { result ≡ hash_key key.now }
{
    match key {
        Key::Nil => 1,
        Key::Int(n) => mix(2, (n.unsigned_abs() % 4294967291) as u64),
        Key::Text(text) => mix_points(3, text.as_slice()),
        Key::Tuple(parts) => mix_keys(4, parts.as_slice()),
    }
}

#[cycle(hash)]
fn mix_keys(m: u64, keys: &[Key]) -> u64
    ensures { result ≡ mix_all m (map hash_key keys.now) }
{
    let mut mixed = m;
    for key in keys {
        mixed = mix(mixed, hash_key(key));
    }
    mixed
}

/// The number of a location. It is the same for the same location.
pub fn hash_loc(loc: &Loc) -> u64
    ensures { result ≡ hash_loc loc.now }
{
    match loc {
        Loc::Name(object, name) => mix(mix(1, object.0), name.0),
        Loc::Attr(object, name) => mix(mix(2, object.0), name.0),
        Loc::Item(object, key) => mix(mix(3, object.0), hash_key(key)),
        Loc::Present(object, key) => mix(mix(4, object.0), hash_key(key)),
        Loc::Shape(object) => mix(5, object.0),
    }
}

/// The number of a version. It is the same for the same version.
pub fn hash_version(version: &Version) -> u64
    ensures { result ≡ hash_version version.now }
{
    match version {
        Version::Empty(location) => hash_loc(location),
        Version::Written(run, place) => mix(mix(6, run.0), *place),
    }
}
