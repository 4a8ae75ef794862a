// Computes the examples: of the plant run and the groups (`boards`), of figures over a season's trials (`season`), of grants and drives
// (`busmaster`), of the doubt lamp (`lamps`) and of mending (`mendings`). What it writes, one behind the other, is compared with the file `stdout`.
#![tactic(auto)]

mod boards;
mod busmaster;
mod lamps;
mod lengths;
mod mendings;
mod season;

fn main(rt: HostRuntime) {
    boards::show(&rt);
    season::show(&rt);
    busmaster::show(&rt);
    lamps::show(&rt);
    mendings::show(&rt);
}
