// Whom a school holds, tentatively, each by its child number: as tests see what the program does by index.
ghost use Rattle.std.specs.Prelude.{◌≡◌, [], IfOk, OnErr};
ghost use Rattle.adm_match.specs.Holding.{Holding, Considers};

use adm_match::HeldByIndex;
use adm_rank::RankKey;
use adm_types::ChildNo;
use std::alloc::{AllocError, Global};
use std::marker::Model;

/// Whom a school tentatively holds, each by its number.
#[derive(Drop)]
pub struct Kept {
    held: HeldByIndex,
}

impl Model for Kept {
    ghost use Rattle.std.specs.Prelude.{All};
    ghost use Rattle.adm_match.specs.Holding.{Holding};
    ghost use Rattle.adm_match_laws.specs.Children.{IsChild};

    ghost Value = { Holding };

    ghost view = { λ k. k.held };

    ghost invariant = { λ k. All IsChild k.held.guests };
}

impl Kept {
    ghost use Rattle.adm_match.specs.Holding.{holding_of};

    /// Holds nobody. It takes no memory.
    pub fn new(alloc: Global, quota: u32) -> Kept
        ensures { result ≡ holding_of quota [] [] }
    {
        Kept {
            held: HeldByIndex::new(alloc, quota),
        }
    }

    /// Considers the child's proposal: it is held too. Where more than the quota are then held and
    /// some of them is no tenant, the guest that ranks last is rejected, and is the answer.
    pub fn take(
        &mut self,
        child: ChildNo,
        key: RankKey,
        tenant: bool,
    ) -> Result<Option<ChildNo>, AllocError>
        ensures ok { IfOk result (Considers self.old self.new (record { child = child; key = key; tenant = tenant })) }
        // After an error it holds whom it held.
        ensures err { OnErr result (self.new ≡ self.old) }
    {
        let out = self.held.consider(child.get() as usize, key, tenant)?;
        let Some(number) = out else {
            return Ok(None);
        };
        Ok(ChildNo::new(number as u32))
    }
}
