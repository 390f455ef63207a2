ghost use Rattle.std.specs.Prelude.{◌≡◌, [], ◌∷◌, None, codes};
ghost use Rattle.net_semantics.specs.Runs.{no_recovery};
ghost use Rattle.kv_machine.specs.Kv.{kv};
ghost use Rattle.kv_machine.specs.declared.cmd.KvCmd.{KvCmd};
ghost use Rattle.lock_server.specs.Locks.{lock_server};
ghost use Rattle.lock_table.specs.Table.{table};
ghost use Rattle.lock_table.specs.declared.cmd.TableCmd.{TableCmd};
ghost use Rattle.primary_backup.specs.Backup.{primary_backup};
ghost use Rattle.raft_xform.specs.Raft.{raft, raft_recovery};
ghost use Rattle.seqnum_xform.specs.Numbering.{sequence_numbered};
ghost use Rattle.vst_base.specs.declared.lock.LockInput.{LockInput};
ghost use Rattle.vst_base.specs.declared.net.Net.{Net};
ghost use Rattle.vst_base.specs.declared.step.Step.{Step};
ghost use Rattle.schedule_make.specs.Inputs.{asked_by_client, kv_input, lock_input, table_input};
ghost use Rattle.schedule_make.specs.Made.{made};

/// The first steps of the schedules of the lock that are made from number 1, and from three others.
pub fn worked_locks()
    ensures plain { made Net.Bag (lock_server 4) no_recovery lock_input 1 20
        ≡ Step.In 3 LockInput.Unlock ∷ Step.In 1 LockInput.Unlock ∷ Step.Tick 3 ∷ Step.Tick 1 ∷ Step.Tick 1 ∷ Step.Tick 0 ∷
        Step.Tick 0 ∷ Step.In 3 LockInput.Lock ∷ Step.Tick 2 ∷ Step.Deliver 0 ∷ Step.Deliver 1 ∷ Step.Tick 2 ∷
        Step.Tick 0 ∷ Step.Tick 0 ∷ Step.In 3 LockInput.Unlock ∷ Step.Deliver 2 ∷ Step.Tick 3 ∷ Step.Tick 0 ∷
        Step.Tick 2 ∷ Step.In 1 LockInput.Unlock ∷ [] }
    ensures numbered { made Net.Dup (sequence_numbered (lock_server 4)) no_recovery lock_input 1 12
        ≡ Step.In 3 LockInput.Unlock ∷ Step.In 1 LockInput.Unlock ∷ Step.Tick 3 ∷ Step.Tick 1 ∷ Step.Tick 1 ∷ Step.Tick 0 ∷
        Step.Tick 0 ∷ Step.In 3 LockInput.Lock ∷ Step.Dup 0 ∷ Step.Deliver 0 ∷ Step.Deliver 1 ∷ Step.Dup 0 ∷ [] }
    ensures plain_of_5 { made Net.Bag (lock_server 4) no_recovery lock_input 5 7
        ≡ Step.In 2 LockInput.Unlock ∷ Step.In 2 LockInput.Lock ∷ Step.Deliver 0 ∷ Step.In 3 LockInput.Unlock ∷
        Step.In 3 LockInput.Unlock ∷ Step.Tick 3 ∷ Step.In 3 LockInput.Lock ∷ [] }
    ensures plain_of_7 { made Net.Bag (lock_server 4) no_recovery lock_input 7 12
        ≡ Step.Tick 2 ∷ Step.Tick 1 ∷ Step.Tick 3 ∷ Step.Tick 3 ∷ Step.Tick 1 ∷ Step.In 3 LockInput.Unlock ∷ Step.Tick 1 ∷
        Step.In 3 LockInput.Lock ∷ Step.In 2 LockInput.Lock ∷ Step.Deliver 1 ∷ Step.Deliver 0 ∷ Step.Tick 3 ∷ [] }
    ensures plain_of_the_greatest { made Net.Bag (lock_server 4) no_recovery lock_input 4294967295 8
        ≡ Step.In 2 LockInput.Lock ∷ Step.Tick 0 ∷ Step.Deliver 0 ∷ Step.Deliver 1 ∷ Step.In 3 LockInput.Unlock ∷
        Step.In 3 LockInput.Lock ∷ Step.Deliver 2 ∷ Step.Tick 0 ∷ [] }
    ensures numbered_of_8 { made Net.Dup (sequence_numbered (lock_server 4)) no_recovery lock_input 8 12
        ≡ Step.Tick 1 ∷ Step.Tick 2 ∷ Step.Tick 3 ∷ Step.In 3 LockInput.Lock ∷ Step.Tick 1 ∷ Step.Deliver 0 ∷ Step.Deliver 1 ∷
        Step.In 2 LockInput.Lock ∷ Step.In 1 LockInput.Lock ∷ Step.Deliver 3 ∷ Step.In 3 LockInput.Unlock ∷ Step.In 1 LockInput.Lock ∷ [] }
{}

/// The same of primary-backup.
pub fn worked_backups()
    ensures plain { made Net.Bag (primary_backup kv) no_recovery kv_input 1 20
        ≡ Step.In 0 (KvCmd.Del (codes "k7")) ∷ Step.In 0 (KvCmd.Cas (codes "k1") None (codes "v1")) ∷ Step.Tick 1 ∷
        Step.Deliver 0 ∷ Step.Deliver 1 ∷ Step.Tick 0 ∷ Step.Deliver 2 ∷ Step.In 1 (KvCmd.Del (codes "k0")) ∷
        Step.Tick 0 ∷ Step.Deliver 3 ∷ Step.Tick 1 ∷ Step.Tick 0 ∷ Step.Tick 0 ∷ Step.Tick 0 ∷
        Step.In 0 (KvCmd.Get (codes "k3")) ∷ Step.Deliver 4 ∷ Step.Tick 1 ∷ Step.Deliver 5 ∷ Step.Tick 0 ∷
        Step.In 0 (KvCmd.Put (codes "k7") (codes "v19")) ∷ [] }
    ensures numbered { made Net.Dup (sequence_numbered (primary_backup kv)) no_recovery kv_input 1 5
        ≡ Step.In 0 (KvCmd.Del (codes "k7")) ∷ Step.In 0 (KvCmd.Cas (codes "k1") None (codes "v1")) ∷ Step.Tick 1 ∷
        Step.Deliver 0 ∷ Step.Deliver 1 ∷ [] }
    ensures table { made Net.Dup (sequence_numbered (primary_backup table)) no_recovery table_input 1 5
        ≡ Step.In 0 (TableCmd.Acquire (codes "l7") (codes "o1")) ∷ Step.In 0 (TableCmd.Release (codes "l1") (codes "o1")) ∷
        Step.Tick 1 ∷ Step.Deliver 0 ∷ Step.Deliver 1 ∷ [] }
    ensures plain_of_9 { made Net.Bag (primary_backup kv) no_recovery kv_input 9 12
        ≡ Step.Tick 1 ∷ Step.Tick 0 ∷ Step.In 1 (KvCmd.Cas (codes "k4") None (codes "v2")) ∷ Step.Tick 0 ∷ Step.Tick 0 ∷ Step.Tick 1 ∷
        Step.In 0 (KvCmd.Get (codes "k5")) ∷ Step.In 1 (KvCmd.Cas (codes "k3") None (codes "v7")) ∷ Step.Deliver 0 ∷
        Step.In 1 (KvCmd.Del (codes "k1")) ∷ Step.Tick 1 ∷ Step.Tick 0 ∷ [] }
    ensures plain_of_the_greatest { made Net.Bag (primary_backup kv) no_recovery kv_input 4294967295 6
        ≡ Step.In 1 (KvCmd.Put (codes "k4") (codes "v0")) ∷ Step.Tick 0 ∷ Step.Tick 0 ∷ Step.Tick 0 ∷
        Step.In 0 (KvCmd.Put (codes "k5") (codes "v4")) ∷ Step.In 0 (KvCmd.Put (codes "k6") (codes "v5")) ∷ [] }
    ensures numbered_of_10 { made Net.Dup (sequence_numbered (primary_backup kv)) no_recovery kv_input 10 8
        ≡ Step.Tick 1 ∷ Step.Tick 0 ∷ Step.Tick 0 ∷ Step.Tick 0 ∷ Step.In 0 (KvCmd.Cas (codes "k0") None (codes "v4")) ∷
        Step.Deliver 0 ∷ Step.Deliver 1 ∷ Step.Tick 0 ∷ [] }
    ensures numbered_of_2102 { made Net.Dup (sequence_numbered (primary_backup kv)) no_recovery kv_input 2102 4
        ≡ Step.In 0 (KvCmd.Get (codes "k5")) ∷ Step.Dup 0 ∷ Step.Deliver 0 ∷ Step.Deliver 0 ∷ [] }
    ensures table_of_2102 { made Net.Dup (sequence_numbered (primary_backup table)) no_recovery table_input 2102 4
        ≡ Step.In 0 (TableCmd.Acquire (codes "l5") (codes "o0")) ∷ Step.Dup 0 ∷ Step.Deliver 0 ∷ Step.Deliver 0 ∷ [] }
    ensures table_of_12 { made Net.Dup (sequence_numbered (primary_backup table)) no_recovery table_input 12 8
        ≡ Step.Tick 0 ∷ Step.Tick 0 ∷ Step.Tick 0 ∷ Step.Tick 1 ∷ Step.Tick 0 ∷ Step.Tick 1 ∷ Step.Tick 1 ∷
        Step.In 1 (TableCmd.Acquire (codes "l3") (codes "o1")) ∷ [] }
{}

/// The same of clusters.
pub fn worked_clusters()
    ensures store { made Net.Fail (raft 5 kv) (raft_recovery kv) (asked_by_client kv_input) 1 20
        ≡ Step.In 4 (record { client = 2; request = 0; cmd = KvCmd.Del (codes "k7") }) ∷
        Step.In 3 (record { client = 0; request = 1; cmd = KvCmd.Cas (codes "k1") None (codes "v1") }) ∷ Step.Tick 4 ∷
        Step.Deliver 1 ∷ Step.Deliver 2 ∷ Step.Tick 2 ∷ Step.Deliver 6 ∷
        Step.In 0 (record { client = 3; request = 7; cmd = KvCmd.Del (codes "k0") }) ∷ Step.Dup 4 ∷ Step.Deliver 3 ∷
        Step.Deliver 9 ∷ Step.Dup 11 ∷ Step.Deliver 0 ∷ Step.Lose 10 ∷
        Step.In 1 (record { client = 1; request = 14; cmd = KvCmd.Get (codes "k3") }) ∷ Step.Deliver 8 ∷ Step.Lose 13 ∷
        Step.Deliver 12 ∷ Step.Deliver 11 ∷
        Step.In 0 (record { client = 0; request = 19; cmd = KvCmd.Put (codes "k7") (codes "v19") }) ∷ [] }
    ensures table { made Net.Fail (raft 5 table) (raft_recovery table) (asked_by_client table_input) 1 20
        ≡ Step.In 4 (record { client = 2; request = 0; cmd = TableCmd.Acquire (codes "l7") (codes "o1") }) ∷
        Step.In 3 (record { client = 0; request = 1; cmd = TableCmd.Release (codes "l1") (codes "o1") }) ∷ Step.Tick 4 ∷
        Step.Deliver 1 ∷ Step.Deliver 2 ∷ Step.Tick 2 ∷ Step.Deliver 6 ∷
        Step.In 0 (record { client = 3; request = 7; cmd = TableCmd.Release (codes "l0") (codes "o2") }) ∷ Step.Dup 4 ∷
        Step.Deliver 3 ∷ Step.Deliver 9 ∷ Step.Dup 11 ∷ Step.Deliver 0 ∷ Step.Lose 10 ∷
        Step.In 1 (record { client = 1; request = 14; cmd = TableCmd.Release (codes "l3") (codes "o1") }) ∷
        Step.Deliver 8 ∷ Step.Lose 13 ∷ Step.Deliver 12 ∷ Step.Deliver 11 ∷
        Step.In 0 (record { client = 0; request = 19; cmd = TableCmd.Release (codes "l7") (codes "o1") }) ∷ [] }
    // A deliver without a candidate becomes a tick; so does an input, and a tick without one becomes a reboot.
    ensures a_tick_for_a_deliver { made Net.Fail (raft 5 kv) (raft_recovery kv) (asked_by_client kv_input) 270 3
        ≡ Step.Crash 0 ∷ Step.Tick 3 ∷ Step.Reboot 0 ∷ [] }
    ensures a_reboot_for_an_input { made Net.Fail (raft 1 kv) (raft_recovery kv) (asked_by_client kv_input) 4 2
        ≡ Step.Crash 0 ∷ Step.Reboot 0 ∷ [] }
    ensures store_of_11 { made Net.Fail (raft 5 kv) (raft_recovery kv) (asked_by_client kv_input) 11 8
        ≡ Step.In 1 (record { client = 2; request = 0; cmd = KvCmd.Del (codes "k1") }) ∷ Step.Tick 4 ∷
        Step.In 4 (record { client = 3; request = 2; cmd = KvCmd.Get (codes "k7") }) ∷ Step.Tick 4 ∷
        Step.In 3 (record { client = 1; request = 4; cmd = KvCmd.Get (codes "k6") }) ∷ Step.Tick 1 ∷ Step.Crash 4 ∷ Step.Reboot 4 ∷ [] }
    ensures store_of_the_greatest { made Net.Fail (raft 5 kv) (raft_recovery kv) (asked_by_client kv_input) 4294967295 6
        ≡ Step.In 0 (record { client = 3; request = 0; cmd = KvCmd.Put (codes "k4") (codes "v0") }) ∷ Step.Tick 1 ∷ Step.Deliver 2 ∷
        Step.Deliver 0 ∷ Step.In 4 (record { client = 0; request = 4; cmd = KvCmd.Put (codes "k5") (codes "v4") }) ∷
        Step.In 2 (record { client = 3; request = 5; cmd = KvCmd.Put (codes "k6") (codes "v5") }) ∷ [] }
    ensures table_of_13 { made Net.Fail (raft 5 table) (raft_recovery table) (asked_by_client table_input) 13 8
        ≡ Step.Tick 4 ∷ Step.Tick 0 ∷ Step.Tick 1 ∷
        Step.In 1 (record { client = 3; request = 3; cmd = TableCmd.Holder (codes "l2") }) ∷
        Step.In 2 (record { client = 2; request = 4; cmd = TableCmd.Acquire (codes "l6") (codes "o0") }) ∷ Step.Lose 3 ∷
        Step.In 2 (record { client = 1; request = 6; cmd = TableCmd.Holder (codes "l2") }) ∷ Step.Deliver 1 ∷ [] }
{}
