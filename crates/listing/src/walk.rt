// Chains as the search makes them, from a list.
ghost use Rattle.std.specs.Prelude.{◌≡◌, ◌<◌, [], ◌∷◌, ◌++◌, length};
ghost use Rattle.flow.specs.Chains.{longest_chain};
ghost use Rattle.listing.specs.After.{lowest_after};

use arrayvec::ArrayVec;
use chains::LONGEST_CHAIN;

// A list of line numbers in the space that the longest chain takes.
pub type Walk = ArrayVec<u16, LONGEST_CHAIN>;

// The list, and one line behind it.
pub fn branch_off(stem: &[u16], line: u16) -> Walk
    requires { length stem.now < longest_chain }
    ensures { result.items ≡ stem.now ++ line ∷ [] }
{
    let mut walk = Walk::try_from(stem).unwrap();
    walk.push(line);
    walk
}

// The lowest number that makes a later list, put behind the first lines.
pub fn lowest_after(given: &[u16], kept: usize) -> usize
    ensures { result ≡ lowest_after given.now kept }
{
    given.get(kept).map_or(0, |line| *line as usize + 1)
}
