//! What a source gives until its end or a fault.
use certificate::fault::SourceFault;
use certificate::source::Source;

/// How many steps came before the end or a fault.
#[derive(Clone, Copy, PartialEq, Eq, Debug)]
pub struct Told {
    pub steps: u32,
    pub fault: Option<SourceFault>,
}

/// Reads a source of fewer than 16 steps, each of at most eight literals and eight hints.
pub fn read_all<S: Source>(source: &mut S) -> Told {
    for steps in 0..16 {
        let mut literals = [7; 8];
        let mut hints = [7; 8];
        match source.read(&mut literals, &mut hints) {
            Ok(Some(_)) => {}
            Ok(None) => return Told { steps, fault: None },
            Err(fault) => {
                return Told {
                    steps,
                    fault: Some(fault),
                };
            }
        }
    }
    Told {
        steps: 16,
        fault: None,
    }
}
