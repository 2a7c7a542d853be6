// Texts of plans and of tasks.
use std::alloc::{AllocError, Global};
use test_tasks::three_places;

/// The plan of one step for the three places: 33 bytes.
pub fn jump() -> &'static str {
    "(jump)\n; cost = 5 (general cost)\n"
}

/// The plan of two steps: 40 bytes.
pub fn two_steps() -> &'static str {
    "(go01)\n(go12)\n; cost = 2 (general cost)\n"
}

/// The three places without a metric, where each operator names the cost 7.
pub fn sevens(alloc: Global) -> Result<String, AllocError> {
    let mut text = String::new(alloc);
    for (place, line) in three_places().lines().enumerate() {
        let changed = match place {
            4 => "0",
            29 | 36 | 43 => "7",
            _ => line,
        };
        text.push_str(changed)?;
        text.push_str("\n")?;
    }
    Ok(text)
}
