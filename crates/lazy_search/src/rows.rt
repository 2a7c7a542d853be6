// What is known of each state, by its number.
ghost use Rattle.std.specs.Prelude.{◌≡◌, ◌≤◌, ◌&&◌, not, nat_lt, vec_len, OnOk};
ghost use Rattle.lama_num.specs.Bounds.{is_below};
ghost use Rattle.lazy_search.specs.Rows.{row_put};

use lama_num::NoMemory;
use search_log::Setting;

/// What stands for a state: its latest visit.
#[derive(Clone, Copy)]
pub(crate) struct LatestVisit {
    /// What it cost to reach by the kind of cost.
    pub g: u64,
    /// What it really cost to reach.
    pub real: u64,
    /// The number of the visit.
    pub number: u32,
    pub dead: bool,
}

/// Puts the row of a state, which is the next one or stands there.
pub(crate) fn put_latest_visit(
    rows: &mut Vec<LatestVisit>,
    id: u32,
    row: LatestVisit,
) -> Result<(), NoMemory>
    requires { id ≤ vec_len rows.old }
    ensures { OnOk result (rows.new.items ≡ row_put rows.old.items id row) }
{
    if (id as usize) < rows.len() {
        rows[id as usize] = row;
        return Ok(());
    }
    rows.push(row)?;
    Ok(())
}

/// Whether a known state is visited again.
pub(crate) fn reopens(setting: &Setting, row: LatestVisit, g: u64) -> bool
    ensures { result ≡ (setting.now.reopen && (not row.dead && nat_lt g row.g)) }
{
    setting.reopen && !row.dead && g < row.g
}
