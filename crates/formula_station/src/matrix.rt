// A policy's relation as a table that a person can read.
use super::policy_file;
use policy::Policy;
use std::io;

// A line for each label: to which labels its data may flow.
fn print_row<P: Policy>(rt: &HostRuntime, policy: &P, from: u32) -> io::Result<()> {
    print!(rt; "{from:>4} |")?;
    for to in 0..policy.labels() {
        if policy.may_flow(from, to) {
            print!(rt; "  +")?;
        } else {
            print!(rt; "  .")?;
        }
    }
    println!(rt; "")
}

// The table, below a line with the columns' labels.
fn print_relation<P: Policy>(rt: &HostRuntime, policy: &P) -> io::Result<()> {
    let labels = policy.labels();
    println!(rt; "{labels} labels; a row's label may flow to the columns marked +")?;
    print!(rt; "from |")?;
    for to in 0..labels {
        print!(rt; "{to:>3}")?;
    }
    println!(rt; "")?;
    for from in 0..labels {
        print_row(rt, policy, from)?;
    }
    Ok(())
}

// Shows the relation of the policy in a file: whether there is one.
pub(crate) fn show(rt: &HostRuntime, path: &str) -> anyhow::Result<bool> {
    let Some(policy) = policy_file::open(rt, path)? else {
        return Ok(false);
    };
    print_relation(rt, &policy)?;
    Ok(true)
}
