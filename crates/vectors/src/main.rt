// Reads, translates, runs and writes the sources that the file `index` lists, checks lists for them, and compares with what is listed; and does so, but for
// pages and lists, with each source in capitals: a line for each difference, and at the end how many sources, runs, lists, differences and pages, the most
// instructions that a run did for its steps, and how many sources, runs and differences in capitals. Then it records each of these runs and replays it,
// with the records that the file `replays` lists, and says how many. Last it reads and translates the pairs of schemes that the file `twos` lists, and reads
// each accepted source behind preludes, and says how many.
#![tactic(auto)]

mod capitals; // the jobs read, translate and run, of a source in capitals
mod lists; // the job check_list
mod reads; // the job read
mod replays; // runs recorded, and the job replay
mod rows; // the rows of the index
mod runs; // the jobs translate and run
mod tally; // counts and lines
mod texts; // room for a text, and numbers in it
mod twos; // the jobs read_two and translate_scheme
mod writes; // the job write

fn main(rt: HostRuntime) {
    let mut buf = texts::buffer();
    let n = rows::load(&rt, b"index", &mut buf);
    rows::rows(&rt, &buf[..n]).show();
    replays::all(&rt);
    twos::all(&rt);
}
