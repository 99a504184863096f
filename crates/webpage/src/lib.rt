// The page with its answer on it: one HTML file of a source, with each name tied to the declaration that it means. It only prints.
#![tactic(auto)]

use answers::Verdict;
use showing::system::System;

mod html; // bytes as HTML shows them
mod looks; // what is to be seen of each byte
mod levels; // at which level a symbol stands
mod painting; // which bytes are words and names, and what each name means
mod lines; // the source, line by line
mod lists; // declarations, the environment, and the tables as text

// A source, what `read` answered, and its table.
pub fn show_page(system: &System, name: &[u8], source: &[u8], v: Verdict, table: &[u16]) {
    let mut looks = [looks::PLAIN; 65536];
    let mut levels = [0u32; 65536];
    html::begin(system, name);
    match v {
        Verdict::Accepted => {
            painting::paint_accepted(source, table, &mut looks, &mut levels);
            lines::head_accepted(system, name);
            lines::show_lines(system, source, &looks, &levels);
            lists::show_lists(system, source, table, &levels);
        }
        Verdict::Refused(r) => {
            let number = r.answer.number;
            let place = r.place.at;
            painting::paint_refused(source, number, place, &mut looks);
            lines::head_refused(system, name, source, number, place);
            lines::show_lines(system, source, &looks, &levels);
        }
    }
    html::end(system);
}
