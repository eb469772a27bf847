ghost use Rattle.std.specs.Prelude.{◌≡◌, IsSome, OnOk, OnErr};
ghost use Rattle.std.specs.FinMap as map;

use crate::table::Table;
use claim_types::{Bucket, ClaimKey, NoMemory};
use std::alloc::Global;
use std::marker::Model;

/// A value for each of some keys, in a hash table for each bucket. Contracts see it as a finite map in
/// the order of keys.
#[derive(Drop)]
pub struct KeyMap<V: Copy> {
    organization_paths: Table<V>,
    routes: Table<V>,
    addresses: Table<V>,
    ssh_keys: Table<V>,
    pages_domains: Table<V>,
}

impl<V: Copy> Model for KeyMap<V> {
    ghost use Rattle.std.specs.FinMap.{FinMap, code};
    ghost use Rattle.claim_types.specs.Order.{key_cmp};
    ghost use Rattle.claim_types.specs.contracts.key.ClaimKey as key_type;
    ghost use Rattle.key_table.specs.Joined.{five, joined};

    ghost Value = { FinMap key_cmp V };

    ghost coded = { code key_type.the_row.coded V.code };

    ghost view = { λ s. joined (five s.organization_paths s.routes s.addresses s.ssh_keys s.pages_domains) };
}

impl<V: Copy> KeyMap<V> {
    /// It takes no memory.
    pub fn new(alloc: Global) -> Self
        ensures { result ≡ map.empty }
    {
        KeyMap {
            organization_paths: Table::new(alloc),
            routes: Table::new(alloc),
            addresses: Table::new(alloc),
            ssh_keys: Table::new(alloc),
            pages_domains: Table::new(alloc),
        }
    }

    /// The value of the key of this bucket and value. No key is built for it.
    pub fn get(&self, bucket: Bucket, value: &[u8]) -> Option<V>
        ensures { result ≡ map.get self.now (record { bucket = bucket; value = value.now }) }
    {
        match bucket {
            Bucket::OrganizationPath => self.organization_paths.get(value),
            Bucket::Route => self.routes.get(value),
            Bucket::Address => self.addresses.get(value),
            Bucket::SshKey => self.ssh_keys.get(value),
            Bucket::PagesDomain => self.pages_domains.get(value),
        }
    }

    /// Gives a key a value. After want of memory all is as it was.
    pub fn put(&mut self, key: ClaimKey, state: V) -> Result<(), NoMemory>
        ensures ok { OnOk result (self.new ≡ map.insert self.old key state) }
        ensures err { OnErr result (self.new ≡ self.old) }
    {
        let ClaimKey { bucket, value } = key;
        let text = value.into_vec();
        match bucket {
            Bucket::OrganizationPath => self.organization_paths.put(text, state),
            Bucket::Route => self.routes.put(text, state),
            Bucket::Address => self.addresses.put(text, state),
            Bucket::SshKey => self.ssh_keys.put(text, state),
            Bucket::PagesDomain => self.pages_domains.put(text, state),
        }
    }

    /// Gives a key that is there another value, which takes no memory.
    pub fn change(&mut self, bucket: Bucket, value: &[u8], state: V)
        requires { IsSome (map.get self.old (record { bucket = bucket; value = value.now })) }
        ensures { self.new ≡ map.insert self.old (record { bucket = bucket; value = value.now }) state }
    {
        match bucket {
            Bucket::OrganizationPath => self.organization_paths.change(value, state),
            Bucket::Route => self.routes.change(value, state),
            Bucket::Address => self.addresses.change(value, state),
            Bucket::SshKey => self.ssh_keys.change(value, state),
            Bucket::PagesDomain => self.pages_domains.change(value, state),
        }
    }

    /// Takes a key away, which takes no memory.
    pub fn remove(&mut self, bucket: Bucket, value: &[u8])
        ensures { self.new ≡ map.remove self.old (record { bucket = bucket; value = value.now }) }
    {
        match bucket {
            Bucket::OrganizationPath => self.organization_paths.remove(value),
            Bucket::Route => self.routes.remove(value),
            Bucket::Address => self.addresses.remove(value),
            Bucket::SshKey => self.ssh_keys.remove(value),
            Bucket::PagesDomain => self.pages_domains.remove(value),
        }
    }
}
