// Quotes a dozen trips by the scheme, a line each.
#![tactic(auto)]

mod scheme;

use quotes::{quote_line, quote_trip};
use scheme::{PRICES, SCHEME, TRIPS};
use std::io;

fn main(rt: HostRuntime) -> io::Result<()> {
    for (number, trip) in (1..).zip(&TRIPS) {
        let answer = quote_trip(&SCHEME, &PRICES, trip);
        rt.println(quote_line(rt.alloc(), number, answer)?)?;
    }
    Ok(())
}
