// Where names start among the fields, by buckets: an index before which no field bears a name of the bucket, NO_START
// where none was put in. A walk for a name begins there.
ghost use Rattle.std.specs.Prelude.{◌≡◌, ◌≤◌, ◌<◌, length};
ghost use Rattle.rules.specs.Limits.{fields_most};
ghost use Rattle.texts.specs.Fills.{filled};
ghost use Rattle.texts.specs.NameStarts.{buckets, no_start, bucket_of, start_in, StartPut};

use crate::fills::fill;
use names::repeats::key_of;
use rules::SHORT_MOST;

// Names fall into so many buckets, by the numbers that their bytes make.
const BUCKETS: usize = 1013;

// A byte and no Option: it stands in a state that the caller stores.
const NO_START: u8 = 255;

// No name is put in yet.
pub(crate) fn clear_starts(starts: &mut [u8])
    requires { buckets ≤ length starts.old }
    ensures { starts.new ≡ filled 0 buckets no_start starts.old }
{
    fill(starts, 0, BUCKETS, NO_START);
}

// The bucket of a held name.
fn bucket_of(name: [u8; SHORT_MOST]) -> usize
    ensures { result ≡ bucket_of name }
{
    key_of(name) % BUCKETS
}

// Where the walk for a held name begins.
pub(crate) fn walk_start(starts: &[u8], name: [u8; SHORT_MOST]) -> usize
    requires { buckets ≤ length starts.now }
    ensures { result ≡ start_in starts.now name }
{
    let bucket = bucket_of(name);
    usize::from(starts[bucket])
}

// A held name of index i put in.
pub(crate) fn put_start(starts: &mut [u8], name: [u8; SHORT_MOST], i: usize)
    requires { (i < fields_most) × (buckets ≤ length starts.old) }
    ensures { StartPut starts.old name i starts.new }
{
    if name[0] == 0 {
        return;
    }
    let bucket = bucket_of(name);
    starts[bucket] = starts[bucket].min(i as u8);
}
