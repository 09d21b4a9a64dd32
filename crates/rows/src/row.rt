// A node's facts in its row.
ghost use Rattle.std.specs.Prelude.{◌≡◌, ◌<◌, length};
ghost use Rattle.known.specs.Rows.{facts_at, Put};

use known::Facts;
use paper::NodeNo;

pub fn facts_at(rows: &[Facts], i: NodeNo) -> Facts
    requires { i.0 < length rows.now }
    ensures { result ≡ facts_at rows.now i.0 }
{
    rows[i.0 as usize]
}

pub fn put_facts(rows: &mut [Facts], i: NodeNo, f: Facts)
    requires { i.0 < length rows.old }
    ensures { Put rows.old i.0 f rows.new }
{
    let at = i.0 as usize;
    rows[at] = f;
}
