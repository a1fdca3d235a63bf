// Keys numbered at their first appearance, in a lent table: heads of buckets, then nodes of three words. Each bucket is a tree in which the bits of a code
// of the key say where to go: whatever the keys are, a search passes 64 nodes at most, where the halves of each are below 2^30.
// Kept (buffer): nodes stand in the words that the caller lends, since a map would need a heap, which the library does not use.
#![tactic(auto)]

ghost use Rattle.std.specs.Prelude.{◌≡◌, ◌+◌, ◌<◌, ◌≤◌, length, set};
ghost use Rattle.lists.specs.Parts.{put};
ghost use Rattle.key_table.specs.Inner.Table.{mix_of, head_of, code_of, node_of, Searchable, Walked, Holding, Finds};

// The halves of a key, mixed.
fn mix(key: u64) -> u64
    ensures { result ≡ mix_of key }
{
    (key % 4294967296) * 1821285621 + (key / 4294967296) * 1481765933
}

// The head where the search for a mixed key starts.
fn head(mixed: u64, heads: usize) -> usize
    requires { heads ≤ 4294967296 }
    ensures { result ≡ head_of heads mixed }
{
    let folded = (mixed / 4294967296 + mixed % 4294967296) % 4294967296;
    let scattered = folded * 2654435769 / 65536 % 4294967296;
    scattered as usize * heads / 4294967296
}

// The bits of a mixed key in the order in which the search takes them.
fn turn(mixed: u64) -> u64
    ensures { result ≡ code_of mixed }
{
    mixed / 16777216 + mixed % 16777216 * 1099511627776
}

// Where the search for a key ends: at a word that leads to the key's node, or at the 0 where such a word belongs.
fn walk(table: &[u64], heads: usize, key: u64) -> usize
    requires { Searchable heads key table.now }
    ensures { Walked heads key table.now result }
{
    let mixed = mix(key);
    let mut at = head(mixed, heads);
    let mut code = turn(mixed);
    // Kept (loop): both ends of the search lie within a turn, at a word that is 0 and at the key's node; no condition at its head says either.
    loop {
        let Some(number) = (table[at] as usize).checked_sub(1) else {
            return at;
        };
        let node = heads + 3 * number;
        if table[node] == key + 1 {
            return at;
        }
        at = node + 1 + (code % 2) as usize;
        code /= 2;
    }
}

// Stores a key at `node`, the place of the node with the given number, and at `at` the word that leads to it. The links of the node are 0:
// what stood there before does not matter.
fn add(table: &mut [u64], node: usize, key: u64, at: usize, number: usize)
    requires { (node + 2 < length table.old) × (at < length table.old) × (key + 1 < 18446744073709551616) × (number + 1 < 18446744073709551616) }
    ensures { table.new ≡ set (put table.old node (node_of key)) at (number + 1) }
{
    table[node] = key + 1;
    table[node + 1] = 0;
    table[node + 2] = 0;
    table[at] = (number + 1) as u64;
}

// The number of a key among those held; where it is not among them, it is added behind them and its number is `count`.
// Kept (buffer): the words past the nodes are the caller's, and hold anything.
pub fn find_or_add(table: &mut [u64], heads: usize, count: usize, key: u64) -> usize
    requires { Holding heads count key table.old }
    ensures { Finds heads count key table.old table.new result }
{
    let at = walk(table, heads, key);
    let Some(number) = (table[at] as usize).checked_sub(1) else {
        add(table, heads + 3 * count, key, at, count);
        return count;
    };
    number
}
