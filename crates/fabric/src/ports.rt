//! Readers of all routers' images, dealt out to those who look up in them.

ghost use Rattle.std.specs.Prelude.{ℕ, ◌≡◌, ◌+◌, ◌≤◌, ◌<◌, map, All, IfOk, OnOk, vec_len};
ghost use Rattle.network_model.specs.Network.{most_workers};
ghost use Rattle.fabric.specs.Writers.{HaveReaders, IsReaderPort};

use network_model::{NoMemory, SmallAllocator};
use publication::{FabricName, ImageReader};

fn take_port<B: FabricName, A: SmallAllocator>(
    alloc: A,
    lists: &mut Vec<Vec<ImageReader<B, A>, A>, A>,
    many: u8,
) -> Result<Vec<ImageReader<B, A>, A>, NoMemory>
    requires some { 0 < many }
    requires stock { HaveReaders many (map (λ rs. rs.items) lists.old.items) }
    ensures port { IfOk result (λ port. IsReaderPort (vec_len lists.old) port.items) }
    ensures routers { vec_len lists.new ≡ vec_len lists.old }
    ensures stock { OnOk result ((k : ℕ) → k < many
        → HaveReaders k (map (λ rs. rs.items) lists.new.items)) }
{
    let mut port = Vec::with_capacity(alloc, lists.len())?;
    for router in 0..lists.len() {
        let Some(reader) = lists[router].pop() else {
            unreachable!()
        };
        port.push_reserved(reader);
    }
    Ok(port)
}

// Deals out the readers of each router: one to the fabric, and one to each of so many workers.
pub fn deal<B: FabricName, A: SmallAllocator>(
    alloc: A,
    lists: Vec<Vec<ImageReader<B, A>, A>, A>,
    workers: u8,
) -> Result<(Vec<ImageReader<B, A>, A>, Vec<Vec<ImageReader<B, A>, A>, A>), NoMemory>
    requires few { workers ≤ most_workers }
    requires stock { HaveReaders (workers + 1) (map (λ rs. rs.items) lists.items) }
    ensures own { IfOk result (λ o. IsReaderPort (vec_len lists) o.0.items) }
    ensures count { IfOk result (λ o. vec_len o.1 ≡ workers) }
    ensures ports { IfOk result (λ o. All
        (λ port. IsReaderPort (vec_len lists) port.items) o.1.items) }
{
    let mut lists = lists;
    let own = take_port(alloc, &mut lists, workers + 1)?;
    let mut ports = Vec::with_capacity(alloc, usize::from(workers))?;
    for done in 0..workers {
        ports.push_reserved(take_port(alloc, &mut lists, workers - done)?);
    }
    Ok((own, ports))
}
