// The way down to a key: from the highest level on through one partition of each, as far as the greatest key not above the one sought, which heads the
// partition one level down.
ghost use Rattle.std.specs.Prelude.{◌≡◌, ◌+◌, ◌*◌, ◌-◌, ◌≤◌, ◌<◌, length};
ghost use Rattle.sizes.specs.Numbers.{field};
ghost use Rattle.sizes.specs.Sizes.{row};
ghost use Rattle.sizes.specs.Hash.{hash_from};
ghost use Rattle.placement.specs.Place.{Shaped};
ghost use Rattle.levels.specs.Ways.{starting, trek, number_in, upto_in, passed_in, reached_in, trod, Inside, along_in, down_in, way_down};

use crate::Trail;
use placement::Label;
use placement::labels::{home_over, offset};
use placement::search::{behind, count_at, find_past};
use sizes::hash::hash;
use sizes::header::{row, rows, used};
use sizes::numbers::{be4, put2};
use sizes::{Geometry, Sizes};

// The key of node i of n, of w bytes each.
pub fn key_at(table: &[u8], w: usize, at: usize, n: u32, i: u32) -> u32
    requires { (12 ≤ w) × (w ≤ 16) × (at + w * n ≤ length table.now) × (i < n) }
    ensures { result ≡ field (at + w * i) 4 table.now }
{
    be4(table, at + rows(w, i))
}

// How many nodes at the front of a chunk, of w bytes each, are not above a key.
pub fn upto(table: &[u8], w: usize, at: usize, n: u32, y: u32) -> u32
    requires { (12 ≤ w) × (w ≤ 16) × (at + w * n ≤ length table.now) }
    ensures { (result ≡ upto_in w table.now n at y) × (result ≤ n) }
{
    (0..n)
        .find(|i| y < key_at(table, w, at, n, *i))
        .unwrap_or(n)
}

// The same where keys rise, as they do in a table, and the way may go past all of them: the last key is asked first.
#[tactic(auto, unfolding(crate::specs::Ways::passed_in, crate::specs::Ways::upto_in))]
fn passed(table: &[u8], w: usize, at: usize, n: u32, y: u32) -> u32
    requires { (12 ≤ w) × (w ≤ 16) × (at + w * n ≤ length table.now) }
    ensures { (result ≡ passed_in w table.now n at y) × (result ≤ n) }
{
    if n == 0 {
        return 0;
    }
    if key_at(table, w, at, n, n - 1) <= y {
        return n;
    }
    upto(table, w, at, n, y)
}

// The same of the chunk in a block. No block of a table has more nodes than fit, and a way goes past none but full ones.
#[tactic(auto, unfolding(crate::specs::Ways::reached_in))]
fn reached(table: &[u8], s: Sizes, i: u32, y: u32) -> u32
    requires { Shaped s table.now × (i < s.blocks) }
    ensures { (result ≡ reached_in s table.now i y) × (result ≤ s.nodes) }
{
    let n = count_at(table, s, i);
    if s.nodes < n {
        return 0;
    }
    let w = row(s);
    let at = offset(s, i) + 8;
    if n < s.nodes {
        return upto(table, w, at, n, y);
    }
    passed(table, w, at, n, y)
}

// The number of a block comes to the path, where it has room.
#[tactic(auto, unfolding(crate::specs::Ways::number_in))]
fn write_number(path: &mut [u8], count: u32, i: u32)
    ensures { path.new ≡ number_in path.old count i }
{
    let at = 2 * (count as usize);
    if at + 2 <= path.len() {
        put2(path, at, i);
    }
}

// A block comes on the way; n nodes of its chunk are not above the key.
#[tactic(auto, unfolding(crate::specs::Ways::trod, crate::specs::Ways::node_place))]
fn tread(table: &[u8], s: Sizes, i: u32, n: u32, t: Trail, path: &mut [u8]) -> Trail
    requires { Shaped s table.now × (i < s.blocks) × (0 < n) × (n ≤ s.nodes) × (t.count < 4294967295) }
    ensures { (trek result path.new ≡ trod s table.now i n (trek t path.old)) × (result.count ≡ t.count + 1) × Inside s table.now result.at }
{
    let at = offset(s, i) + (8 + used(s, n - 1));
    write_number(path, t.count, i);
    Trail {
        count: t.count + 1,
        first: be4(table, at),
        at: Some(at),
    }
}

// One level: chunk after chunk of the partition that is to be gone through. A chunk that is looked at only to see that its first key is larger is not on
// the way.
fn along(table: &[u8], q: Geometry, g: u32, level: u32, y: u32, t: Trail, path: &mut [u8]) -> Trail
    requires { Shaped q.sizes table.now × (g ≡ hash_from 5 5 q.sizes.seed t.first) × (0 < level) × (level ≤ q.top) × (t.count + 65535 ≤ 4294967295) }
    ensures { (trek result path.new ≡ along_in q.sizes table.now level y (trek t path.old)) × (result.count ≤ t.count + 65535) × Inside q.sizes table.now result.at }
{
    let s = q.sizes;
    let first = t.first;
    let mut w = Trail { at: None, ..t };
    let mut start = home_over(
        q,
        g,
        Label {
            level,
            first,
            number: 0,
        },
    );
    for number in 0..s.blocks {
        let want = Label {
            level,
            first,
            number,
        };
        let Some(i) = find_past(table, s, start, want) else {
            return w;
        };
        let n = reached(table, s, i, y);
        if n == 0 {
            return w;
        }
        w = tread(table, s, i, n, w, path);
        let ends_here = n < s.nodes;
        if ends_here {
            return w;
        }
        let next = Label {
            number: number + 1,
            ..want
        };
        start = behind(s, g, next, i);
    }
    w
}

// The levels above l.
pub fn descend(table: &[u8], q: Geometry, l: u32, y: u32, path: &mut [u8]) -> Trail
    requires { Shaped q.sizes table.now }
    ensures { (trek result path.new ≡ down_in q.sizes table.now l y (q.top - l) (trek starting path.old)) × Inside q.sizes table.now result.at }
{
    let mut t = Trail::default();
    // One hash for a key: where the way stays with a partition's first key, the hash is that of the level above.
    let mut first = 0;
    let mut g = hash(q.sizes, 5, first);
    for under in (l..q.top).rev() {
        if t.first != first {
            first = t.first;
            g = hash(q.sizes, 5, first);
        }
        t = along(table, q, g, under + 1, y, t, path);
    }
    t
}

// The way alone, without its path.
#[tactic(auto, unfolding(crate::specs::Ways::way_down))]
pub fn way_down(table: &[u8], q: Geometry, l: u32, y: u32) -> Trail
    requires { Shaped q.sizes table.now }
    ensures { (result ≡ way_down q.sizes table.now q.top l y) × Inside q.sizes table.now result.at }
{
    let mut none = [0u8; 1];
    descend(table, q, l, y, &mut none)
}
