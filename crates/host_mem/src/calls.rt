// Which calls are to fail.
ghost use Rattle.std.specs.Prelude.{◌≡◌, ◌+◌, ◌<◌, ◌&&◌, nat_eq, length};
ghost use Rattle.host_mem.specs.Calls.{kind_of, called, raised, is_for, fault_of};

/// A call of a host, by its kind.
#[derive(Clone, Copy, PartialEq, Eq)]
pub enum HostCall {
    ReadSome,
    Create,
    Append,
    Rename,
    Remove,
    Start,
    Wait,
}

/// The numbered call of a kind fails, before or after its effect.
///
/// Numbers count from 1 for each kind of call. Of several entries for one call the first counts.
#[derive(Clone, Copy, PartialEq, Eq)]
pub struct Fail {
    pub call: HostCall,
    pub number: u32,
    pub after: bool,
}

impl HostCall {
    fn kind(self) -> usize
        ensures kind { result ≡ kind_of self }
        ensures few { result < 7 }
    {
        match self {
            HostCall::ReadSome => 0,
            HostCall::Create => 1,
            HostCall::Append => 2,
            HostCall::Rename => 3,
            HostCall::Remove => 4,
            HostCall::Start => 5,
            HostCall::Wait => 6,
        }
    }
}

fn has_number(number: u32, earlier: u64) -> bool
    ensures { result ≡ nat_eq number (earlier + 1) }
{
    number > 0 && u64::from(number) - 1 == earlier
}

fn is_entry_for(fail: &Fail, call: HostCall, earlier: u64) -> bool
    ensures { result ≡ is_for call earlier fail.now }
{
    fail.call.kind() == call.kind() && has_number(fail.number, earlier)
}

fn fault_in(failing: &[Fail], call: HostCall, earlier: u64) -> Option<bool>
    ensures { result ≡ fault_of failing.now call earlier }
{
    failing
        .iter()
        .find(|fail| is_entry_for(fail, call, earlier))
        .map(|fail| fail.after)
}

/// Counts a call, and says whether it is to fail, and then whether after its effect.
pub(crate) fn next_fault(failing: &[Fail], calls: &mut [u64], call: HostCall) -> Option<bool>
    requires { length calls.old ≡ 7 }
    ensures fault { result ≡ fault_of failing.now call (called calls.old call) }
    ensures counted { calls.new ≡ raised calls.old call }
{
    let kind = call.kind();
    let earlier = calls[kind];
    calls[kind] = earlier.saturating_add(1);
    fault_in(failing, call, earlier)
}
