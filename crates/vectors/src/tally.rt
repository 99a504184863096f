// What the sources and their runs came to, counted, and a line for each difference.
ghost use Rattle.std.specs.Prelude.{◌≡◌, ◌*◌};
ghost use Rattle.vectors.specs.Listed.{more as moreOf, nothing, one_source, one_run, one_page, one_back, one_again, one_list, checked, most_of};

// Standard output.
const STDOUT: i32 = 1;

pub fn print(text: &[u8]) {
    io::write_all(STDOUT, text);
}

pub fn print_count(n: u32) {
    io::print_decimal(STDOUT, n as u64);
}

// The sources, the runs, the pages, those of them that were read back and those written again, the lists and the differences so far; and of the
// run with the most instructions for its steps, how many of each.
#[derive(Clone, Copy)]
pub struct Tally {
    pub sources: u32,
    pub runs: u32,
    pub pages: u32,
    pub back: u32,
    pub again: u32,
    pub lists: u32,
    pub differences: u32,
    pub done: u32,
    pub steps: u32,
}

// One more; the greatest number stays.
pub fn more(n: u32) -> u32
    ensures { result ≡ moreOf n }
{
    if n < 4294967295 {
        return n + 1;
    }
    n
}

fn product(a: u32, b: u32) -> u64
    ensures { result ≡ a * b }
{
    a as u64 * b as u64
}

impl Tally {
    pub fn new() -> Tally
        ensures { result ≡ nothing }
    {
        Tally {
            sources: 0,
            runs: 0,
            pages: 0,
            back: 0,
            again: 0,
            lists: 0,
            differences: 0,
            done: 0,
            steps: 1,
        }
    }

    pub fn source(mut self) -> Tally
        ensures { result ≡ one_source self }
    {
        self.sources = more(self.sources);
        self
    }

    pub fn run(mut self) -> Tally
        ensures { result ≡ one_run self }
    {
        self.runs = more(self.runs);
        self
    }

    pub fn page(mut self) -> Tally
        ensures { result ≡ one_page self }
    {
        self.pages = more(self.pages);
        self
    }

    pub fn back(mut self) -> Tally
        ensures { result ≡ one_back self }
    {
        self.back = more(self.back);
        self
    }

    pub fn again(mut self) -> Tally
        ensures { result ≡ one_again self }
    {
        self.again = more(self.again);
        self
    }

    pub fn list(mut self) -> Tally
        ensures { result ≡ one_list self }
    {
        self.lists = more(self.lists);
        self
    }

    // Where what was found is not what is listed, a line that says of what source, and of what.
    pub fn check(mut self, same: bool, name: &[u8], what: &[u8]) -> Tally
        ensures { result ≡ checked same self }
    {
        if same {
            return self;
        }
        print(name);
        print(b": ");
        print(what);
        print(b"\n");
        self.differences = more(self.differences);
        self
    }

    // A run that did so many instructions for so many steps.
    pub fn most(mut self, done: u32, steps: u32) -> Tally
        ensures { result ≡ most_of done steps self }
    {
        if product(self.done, steps) < product(done, self.steps) {
            self.done = done;
            self.steps = steps;
        }
        self
    }

    // Of sources in capitals.
    fn show_capitals(self) {
        print(b"in capitals: ");
        print_count(self.sources);
        print(b" sources, ");
        print_count(self.runs);
        print(b" runs, ");
        print_count(self.differences);
        print(b" differences\n");
    }

    pub fn show(self) {
        print_count(self.sources);
        print(b" sources, ");
        print_count(self.runs);
        print(b" runs, ");
        print_count(self.lists);
        print(b" lists, ");
        print_count(self.differences);
        print(b" differences\n");
        print_count(self.pages);
        print(b" pages written, ");
        print_count(self.back);
        print(b" read back, ");
        print_count(self.again);
        print(b" written again\nat most ");
        print_count(self.done);
        print(b" instructions for ");
        print_count(self.steps);
        print(b" steps\n");
    }
}

// Of the sources as they are, and of the same sources in capitals.
#[derive(Clone, Copy)]
pub struct Tallies {
    pub plain: Tally,
    pub capitals: Tally,
}

impl Tallies {
    pub fn new() -> Tallies
        ensures { (result.plain ≡ nothing) × (result.capitals ≡ nothing) }
    {
        let plain = Tally::new();
        let capitals = Tally::new();
        Tallies { plain, capitals }
    }

    pub fn show(self) {
        let plain = self.plain;
        plain.show();
        let capitals = self.capitals;
        capitals.show_capitals();
    }
}
