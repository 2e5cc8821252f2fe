// A guess that only speed hangs on. Rounds are many where the arcs are listed so that paths are found out of order. So the
// arcs are taken once from the ends of the paths on: those that lead to a place after all that leave it. Nothing is
// promised of that order. What an arc asks may be taken in any, and rounds go on from there.
ghost use Rattle.std.specs.Prelude.{ℕ, ◌≤◌, ◌<◌, ◌≡◌, length, IfSome};
ghost use Rattle.graph.specs.Graphs.{graph_of, arcs};
ghost use Rattle.graph.specs.Parts.{at, AtMost, turned, most, Values, Grown};

use crate::lent::SoundGraph;
use crate::rounds::raise;

// The places that came to wait, in the order in which they came.
// Kept so: the library's rules want fixed memory and no heap, so the queue is an array and the count of those that came.
// Whose turn it is stands outside, in `peel`: in here it is stored and read again at every turn.
#[derive(Drop)]
struct Queue {
    places: [u32; 128],
    tail: usize,
    ghost inside: { tail ≤ 128 },
    ghost below: { AtMost 127 places },
}

impl Queue {
    // Puts a place behind the others, if there is room.
    fn push(&mut self, place: usize)
        requires { place < 128 }
    {
        if self.tail < self.places.len() {
            self.places[self.tail] = place as u32;
            self.tail += 1;
        }
    }

    // The place whose turn it is, if so many came.
    fn at(&self, turn: usize) -> Option<usize>
        ensures { IfSome result (λ place. (place < 128) × (turn < 128)) }
    {
        let came = &self.places[..self.tail];
        let place = *came.get(turn)?;
        Some(place as usize)
    }
}

// A graph with the arcs that lead to a place linked: `first` has the index of one plus 1, `next` that of the one behind it,
// which stands before it in the graph; 0 where there is none.
// Kept so: the library's rules want fixed memory and no heap, so links are indices in an array.
// Kept so: `Option<u16>` in place of the plus 1 takes 3.4 percent more instructions a call where 128 places have 1,024
// arcs, shuffled (126,443 to 130,773); `Option<u32>` 5.9 percent, and 24,952 bytes of stack, of which 20,480 are promised.
#[derive(Drop)]
struct Links<'a> {
    first: [u32; 128],
    sound: SoundGraph<'a>,
    next: [u32; 1_024],
    ghost heads: { AtMost (arcs (graph_of sound.graph)) first },
    ghost falls: { (a : ℕ) → at next a ≤ a },
}

impl<'a> Links<'a> {
    // Links all arcs, and counts in `left` those that leave a place.
    fn link(&mut self, left: &mut [u32; 128])
        requires { AtMost 0 left.old × AtMost 0 self.old.first }
        ensures { self.new.sound.graph ≡ self.old.sound.graph }
    {
        let graph = self.sound.graph;
        for arc in 0..graph.befores.len() {
            let before = graph.befores[arc] as usize;
            let after = graph.afters[arc] as usize;
            left[before] += 1;
            self.next[arc] = self.first[after];
            self.first[after] = arc as u32 + 1;
        }
    }

    // Takes the arcs that lead to a place. One that they leave waits when the last arc that leaves it is taken.
    fn take(&self, place: usize, found: &mut [u64; 128], left: &mut [u32; 128], queue: &mut Queue)
        requires { (place < 128) × Values (graph_of self.now.sound.graph) 299 found.old }
        ensures { Grown (graph_of self.now.sound.graph) turned found.old found.new }
    {
        let graph = self.sound.graph;
        let mut link = self.first[place] as usize;
        while 0 < link {
            let arc = link - 1;
            raise(&self.sound, found, arc);
            let before = graph.befores[arc] as usize;
            if last(&mut left[before]) {
                queue.push(before);
            }
            link = self.next[arc] as usize;
        }
    }
}

// Counts one arc less of those that leave a place; whether it was the last. Each arc is taken once, so there is one to take
// off; that is not proved, and nothing hangs on it.
fn last(left: &mut u32) -> bool {
    *left = left.wrapping_sub(1);
    *left == 0
}

// The places that nothing follows wait first.
fn ends(left: &[u32], queue: &mut Queue)
    requires { length left.now ≤ 128 }
{
    for (place, arcs) in left.iter().enumerate() {
        if *arcs == 0 {
            queue.push(place);
        }
    }
}

// Takes the arcs of all places, in the order in which these come to wait.
fn peel(links: &Links, found: &mut [u64; 128], left: &mut [u32; 128], queue: &mut Queue)
    requires { Values (graph_of links.now.sound.graph) 298 found.old }
    ensures { Grown (graph_of links.now.sound.graph) most found.old found.new }
{
    let mut turn = 0;
    while let Some(place) = queue.at(turn) {
        turn += 1;
        links.take(place, found, left, queue);
    }
}

// The guess, in rooms of its own.
// Kept so: an array of which a part is used, since the library has no heap.
pub(crate) fn guess(sound: &SoundGraph, found: &mut [u64; 128])
    requires { Values (graph_of sound.now.graph) 298 found.old }
    ensures { Grown (graph_of sound.now.graph) most found.old found.new }
{
    let mut left = [0u32; 128];
    let mut links = Links {
        first: [0; 128],
        sound: *sound,
        next: [0; 1_024],
    };
    links.link(&mut left);
    let mut queue = Queue {
        places: [0; 128],
        tail: 0,
    };
    ends(&left[..sound.graph.executions.len()], &mut queue);
    peel(&links, found, &mut left, &mut queue);
}
