//! Runs that show one thing each, and what is printed of them, as an independent checker made it.

pub const NAMED: &str = "\
run: an empty history
turns: 0
stores: reads writes
trace: trace 1 512 1 1; end
report: tiles 0 0 0 0; promotions 0; demotions 0; preemptions 0; images 0 0; frames 512 0 0; end

run: the oldest page is paged out
turns: 1025
stores: reads writes; reads writes
trace: trace 1 512 1 2; 0 map 0 0 512 fixed write; 0 store 0 0 5; 511 times 8192: 0 load 0 #; 0 map 1 0 8 fixed write; \
0 load 1 0; end
report: 1025 0 s1 answer 513 done; 1026 0 s1+f claim 0 0 0 for 0 read; 1027 0 s0 out 0 written; 1028 0 s0+f give 0 0; \
1029 0 s1+f use 0 0 0 8 8 0; 1030 0 s1 answer 514 value 0 miss 0; tiles 8 7 7 0; promotions 64; demotions 1; \
preemptions 0; images 0 513; frames 0 0 512; end

run: the write of the oldest page fails, and is done when the call is made again
turns: 1025
stores: reads writes 1; reads writes 1
trace: trace 1 512 1 2; 0 map 0 0 512 fixed write; 0 store 0 0 5; 511 times 8192: 0 load 0 #; 0 map 1 0 8 fixed write; \
0 load 1 0; 0 load 1 0; end
report: 1025 0 s1 answer 513 done; 1026 0 s1+f claim 0 0 0 for 0 read; 1027 0 s0 failed 0 write 1; 1028 0 s0+f unclaim \
0; 1029 0 s1 answer 514 storefault 0 1; 1030 0 s1+f claim 0 0 0 for 0 read; 1031 0 s0 out 0 written; 1032 0 s0+f give \
0 0; 1033 0 s1+f use 0 0 0 8 8 0; 1034 0 s1 answer 515 value 0 miss 0; tiles 8 7 7 0; promotions 64; demotions 1; \
preemptions 0; images 0 513; frames 0 0 512; end

run: there is no memory to write the oldest page
turns: 1025
stores: full
trace: trace 1 512 1 2; 0 map 0 0 512 fixed write; 0 store 0 0 5; 511 times 8192: 0 load 0 #; 0 map 1 0 8 fixed write; \
0 load 1 0; 0 load 0 0; end
report: 1025 0 s1 answer 513 done; 1026 0 s1+f claim 0 0 0 for 0 read; 1027 0 s0+f unclaim 0; 1028 0 s1 answer 514 \
nomemory; 1029 0 s0 answer 515 value 5 hit 0; tiles 8 7 7 0; promotions 63; demotions 0; preemptions 0; images 1 512; \
frames 0 0 512; end

run: a claimed page is unmapped
turns: 1025 1100111
stores: reads writes; reads writes
trace: trace 1 512 2 2; 0 map 0 0 512 fixed write; 0 load 0 0; 511 times 8192: 0 load 0 #; 0 unmap 0 0; 1 map 1 0 8 \
fixed write; 1 load 1 0; end
report: 1025 1 s1 answer 0 done; 1026 1 s1+f claim 0 0 0 for 0 read; 1027 0 s0+f clear 0 512; 1028 0 s0 answer 513 \
done; 1029 1 f got 0; 1030 1 s1+f use 0 0 0 8 8 0; 1031 1 s1 answer 1 value 0 miss 0; tiles 1 0 0 0; promotions 64; \
demotions 1; preemptions 0; images 0 513; frames 504 7 1; end

run: a claimed page is evicted
turns: 1025 110111
stores: reads writes; reads writes
trace: trace 1 512 2 2; 0 map 0 0 512 fixed write; 0 load 0 0; 511 times 8192: 0 load 0 #; 0 evict 0 0; 1 map 1 0 8 \
fixed write; 1 load 1 0; end
report: 1025 1 s1 answer 0 done; 1026 1 s1+f claim 0 0 0 for 0 read; 1027 0 s0+f answer 513 clean; 1028 1 f got 0; \
1029 1 s1+f use 0 0 0 8 8 0; 1030 1 s1 answer 1 value 0 miss 0; tiles 8 7 7 0; promotions 64; demotions 1; preemptions \
0; images 0 513; frames 0 0 512; end

run: the page is resident when its claimer comes back
turns: 1025 11222221111
stores: reads writes; reads writes
trace: trace 1 512 3 2; 0 map 0 0 512 fixed write; 0 load 0 0; 511 times 8192: 0 load 0 #; 1 map 1 0 8 fixed write; 1 \
load 1 0; 2 load 1 0; end
report: 1025 1 s1 answer 0 done; 1026 1 s1+f claim 0 0 0 for 0 read; 1027 2 s1+f claim 0 1 1 for 0 read; 1028 2 s0 out \
1 clean; 1029 2 s0+f give 1 1; 1030 2 s1+f use 0 1 0 8 8 0; 1031 2 s1 answer 0 value 0 miss 0; 1032 1 s0 out 0 clean; \
1033 1 s0+f give 0 0; 1034 1 f drop 0; 1035 1 s1 answer 1 value 0 miss 0; tiles 7 7 7 0; promotions 64; demotions 1; \
preemptions 0; images 0 514; frames 1 0 511; end

run: the region is gone when the claimer comes back
turns: 1025 110011111
stores: reads writes; reads writes
trace: trace 1 512 2 2; 0 map 0 0 512 fixed write; 0 load 0 0; 511 times 8192: 0 load 0 #; 1 map 1 0 8 fixed write; 1 \
load 1 0; 0 unmap 1 0; end
report: 1025 1 s1 answer 0 done; 1026 1 s1+f claim 0 0 0 for 0 read; 1027 0 s1+f clear 0 8; 1028 0 s1 answer 513 done; \
1029 1 s0 out 0 clean; 1030 1 s0+f give 0 0; 1031 1 f drop 0; 1032 1 s1 answer 1 unmapped; tiles 7 7 7 0; promotions \
64; demotions 1; preemptions 0; images 0 512; frames 1 0 511; end

run: the right to write is gone when the claimer comes back
turns: 1025 1101111
stores: reads writes; reads writes
trace: trace 1 512 2 2; 0 map 0 0 512 fixed write; 0 load 0 0; 511 times 8192: 0 load 0 #; 1 map 1 0 8 fixed write; 1 \
store 1 0 7; 0 protect 1 0 1 read; end
report: 1025 1 s1 answer 0 done; 1026 1 s1+f claim 0 0 0 for 0 write; 1027 0 s1 answer 513 done; 1028 1 s0 out 0 \
clean; 1029 1 s0+f give 0 0; 1030 1 f drop 0; 1031 1 s1 answer 1 denied; tiles 7 7 7 0; promotions 64; demotions 1; \
preemptions 0; images 0 512; frames 1 0 511; end

run: every frame is wired
turns: 1025
stores: reads writes
trace: trace 1 512 1 1; 0 map 0 0 512 wired write; 0 load 0 0; 511 times 8192: 0 load 0 #; 0 map 0 512 8 fixed write; \
0 load 0 4194304; 0 evict 0 3; end
report: 1025 0 s0 answer 513 done; 1026 0 f refused 512 0 0; 1027 0 s0 answer 514 noframes 512 0 0; 1028 0 s0 answer \
515 denied; tiles 0 0 0 1; promotions 64; demotions 0; preemptions 0; images 0 512; frames 0 0 512; end

run: a translation that is changed leaves the images of both processors
turns: 0 00000000000000000110001011
stores: reads writes
trace: trace 1 512 2 1; 0 map 0 0 8 fixed write; 0 load 0 0; 0 load 0 8192; 0 load 0 16384; 0 load 0 24576; 0 load 0 \
32768; 0 load 0 40960; 0 load 0 49152; 0 load 0 57344; 1 load 0 0; 1 load 0 57344; 0 evict 0 1; 0 load 0 8192; 1 load \
0 57344; 0 store 0 0 7; 1 load 0 57344; 1 load 0 57344; end
report: 0 0 s0 answer 0 done; 1 0 s0+f take 0 0 0 8 8 0; 2 0 s0 answer 1 value 0 miss 0; 3 0 s0+f take 1 1 0 8 8 0; 4 \
0 s0 answer 2 value 0 miss 0; 5 0 s0+f take 2 2 0 8 8 0; 6 0 s0 answer 3 value 0 miss 0; 7 0 s0+f take 3 3 0 8 8 0; 8 \
0 s0 answer 4 value 0 miss 0; 9 0 s0+f take 4 4 0 8 8 0; 10 0 s0 answer 5 value 0 miss 0; 11 0 s0+f take 5 5 0 8 8 0; \
12 0 s0 answer 6 value 0 miss 0; 13 0 s0+f take 6 6 0 8 8 0; 14 0 s0 answer 7 value 0 miss 0; 15 0 s0+f take 7 7 0 8 8 \
0; 16 0 s0 answer 8 value 0 miss 1; 17 1 s0 answer 0 value 0 miss 1; 18 1 s0 answer 1 value 0 hit 1; 19 0 s0+f answer \
9 clean; 20 0 s0+f take 1 1 0 8 8 0; 21 0 s0 answer 10 value 0 miss 1; 22 1 s0 answer 2 value 0 miss 1; 23 0 s0 answer \
11 done hit 0; 24 1 s0 answer 3 value 0 miss 0; 25 1 s0 answer 4 value 0 hit 0; tiles 8 0 0 0; promotions 2; demotions \
2; preemptions 0; images 3 12; frames 504 0 8; end

run: the pages of a discarded range are new
turns: 0
stores: reads writes
trace: trace 3 512 1 1 0123; 0 map 0 0 8 fixed write; 0 store 0 0 5; 0 sync 0 0; 0 discard 0 0 8; 0 load 0 0; end
report: 0 0 s0 answer 0 done; 1 0 s0+f take 0 0 0 8 8 0; 2 0 s0 answer 1 done miss 0; 3 0 s0 answer 2 written; 4 0 \
s0+f clear 0 8; 5 0 s0 answer 3 done; 6 0 s0+f take 0 0 0 8 8 0; 7 0 s0 answer 4 value 0 miss 0; tiles 1 0 0 0; \
promotions 0; demotions 0; preemptions 0; images 0 2; frames 504 7 1; end

run: the frames of a wired region come to no other page until it is wired no longer
turns: 1025
stores: reads writes; reads writes
trace: trace 3 512 1 2 0123; 0 map 0 0 512 fixed write; 0 load 0 0; 511 times 8192: 0 load 0 #; 0 wire 0 0; 0 evict 0 \
3; 0 map 1 0 8 fixed write; 0 load 1 0; 0 unwire 0 0; 0 load 1 0; end
report: 1025 0 s0+f pin 0 512 1; 1026 0 s0 answer 513 done; 1027 0 s0 answer 514 denied; 1028 0 s1 answer 515 done; \
1029 0 f refused 512 0 0; 1030 0 s1 answer 516 noframes 512 0 0; 1031 0 s0+f pin 0 512 0; 1032 0 s0 answer 517 done; \
1033 0 s1+f claim 0 0 0 for 0 read; 1034 0 s0 out 0 clean; 1035 0 s0+f give 0 0; 1036 0 s1+f use 0 0 0 8 8 0; 1037 0 \
s1 answer 518 value 0 miss 0; tiles 8 7 7 0; promotions 64; demotions 1; preemptions 0; images 0 513; frames 0 0 512; \
end

run: a wire is busy while a frame of its region is claimed
turns: 1025 11001111
stores: reads writes; reads writes
trace: trace 3 512 2 2 0123; 0 map 0 0 512 fixed write; 0 load 0 0; 511 times 8192: 0 load 0 #; 0 wire 0 0; 1 map 1 0 \
8 fixed write; 1 load 1 0; end
report: 1025 1 s1 answer 0 done; 1026 1 s1+f claim 0 0 0 for 0 read; 1027 0 s0+f kept 0 512 0 0; 1028 0 s0 answer 513 \
busy 0; 1029 1 s0 out 0 clean; 1030 1 s0+f give 0 0; 1031 1 s1+f use 0 0 0 8 8 0; 1032 1 s1 answer 1 value 0 miss 0; \
tiles 8 7 7 0; promotions 64; demotions 1; preemptions 0; images 0 513; frames 0 0 512; end";

/// Beside a daemon, whose digit is the one behind those of the processors.
pub const BESIDE_DAEMONS: &str = "\
run: a daemon keeps as many frames free as its mark
turns: 1025 111111111
stores: reads writes
trace: trace 1 512 1 1; daemon 2 2; 0 map 0 0 512 fixed write; 0 store 0 0 5; 511 times 8192: 0 load 0 #; 0 map 0 512 \
8 fixed write; 0 load 0 4194304; end
report: 1025 1 f claim 0 0 0; 1026 1 s0 out 0 written; 1027 1 s0+f give 0 0; 1028 1 f drop 0; 1029 1 f claim 0 1 1; \
1030 1 s0 out 1 clean; 1031 1 s0+f give 1 1; 1032 1 f drop 1; 1033 1 f rest 0; 1034 0 s0 answer 513 done; 1035 0 s0+f \
take 512 0 512 520 8 0; 1036 0 s0 answer 514 value 0 miss 0; 1037 1 f claim 0 2 2; 1038 1 s0 out 2 clean; 1039 1 s0+f \
give 2 2; 1040 1 f drop 2; 1041 1 f rest 0; tiles 6 7 7 0; promotions 64; demotions 1; preemptions 0; images 0 513; \
frames 2 0 510; end

run: a claimed frame goes to the daemon whose victim is evicted meanwhile
turns: 1025 2122222222
stores: reads writes
trace: trace 1 512 2 1; daemon 2 1; 0 map 0 0 512 fixed write; 0 store 0 0 5; 511 times 8192: 0 load 0 #; 1 evict 0 0; \
end
report: 1025 2 f claim 0 0 0; 1026 1 s0+f answer 0 written; 1027 2 f got 0; 1028 2 f drop 0; 1029 2 f claim 0 1 1; \
1030 2 s0 out 1 clean; 1031 2 s0+f give 1 1; 1032 2 f drop 1; 1033 2 f rest 0; tiles 6 7 7 0; promotions 63; demotions \
0; preemptions 0; images 0 512; frames 2 0 510; end

run: the write of a daemon's victim fails, and its turn ends
turns: 1025 111111111111
stores: reads writes 1
trace: trace 1 512 1 1; daemon 2 2; 0 map 0 0 512 fixed write; 0 store 0 0 5; 511 times 8192: 0 load 0 #; end
report: 1025 1 f claim 0 0 0; 1026 1 s0 failed 0 write 1; 1027 1 s0+f unclaim 0; 1028 1 f claim 0 0 0; 1029 1 s0 out 0 \
written; 1030 1 s0+f give 0 0; 1031 1 f drop 0; 1032 1 f claim 0 1 1; 1033 1 s0 out 1 clean; 1034 1 s0+f give 1 1; \
1035 1 f drop 1; 1036 1 f rest 0; tiles 6 7 7 0; promotions 64; demotions 1; preemptions 0; images 0 512; frames 2 0 \
510; end

run: there is no victim, and a daemon rests
turns: 1025 11
stores: reads writes
trace: trace 1 512 1 1; daemon 64 2; 0 map 0 0 512 wired write; 0 load 0 0; 511 times 8192: 0 load 0 #; end
report: 1025 1 f rest 0; 1026 1 f rest 0; tiles 0 0 0 1; promotions 64; demotions 0; preemptions 0; images 0 512; \
frames 0 0 512; end";

/// In turns of processors that can't step.
pub const ORDERS: &str = "\
run: a processor that waits is passed over
turns: 0 00101
stores: reads writes
trace: trace 1 512 2 1; 0 map 0 0 16 fixed write; 1 load 0 24584; 0 store 0 24584 9; end
report: 0 0 s0 answer 0 done; 1 0 s0+f take 3 3 0 16 16 0; 2 0 s0 answer 1 done miss 0; 3 1 s0 answer 0 value 9 miss \
0; tiles 1 0 0 0; promotions 0; demotions 0; preemptions 0; images 0 2; frames 504 7 1; end

run: a processor that has ended is passed over
turns: 0 111
stores: reads writes
trace: trace 1 512 2 1; 0 map 0 0 16 fixed write; 1 load 0 24584; 0 store 0 24584 9; end
report: 0 1 s0 answer 0 unmapped; 1 0 s0 answer 0 done; 2 0 s0+f take 3 3 0 16 16 0; 3 0 s0 answer 1 done miss 0; \
tiles 1 0 0 0; promotions 0; demotions 0; preemptions 0; images 0 1; frames 504 7 1; end

run: without turns the lowest that can step does
turns: 0
stores: reads writes
trace: trace 1 512 2 1; 0 map 0 0 16 fixed write; 1 load 0 24584; 0 store 0 24584 9; end
report: 0 0 s0 answer 0 done; 1 0 s0+f take 3 3 0 16 16 0; 2 0 s0 answer 1 done miss 0; 3 1 s0 answer 0 value 9 miss \
0; tiles 1 0 0 0; promotions 0; demotions 0; preemptions 0; images 0 2; frames 504 7 1; end

run: behind its turns the lowest that can step does
turns: 0 01
stores: reads writes
trace: trace 1 512 2 1; 0 map 0 0 16 fixed write; 1 load 0 24584; 0 store 0 24584 9; end
report: 0 0 s0 answer 0 done; 1 1 s0+f take 3 3 0 16 16 0; 2 1 s0 answer 0 value 0 miss 0; 3 0 s0 answer 1 done miss \
0; tiles 1 0 0 0; promotions 0; demotions 0; preemptions 0; images 0 2; frames 504 7 1; end";
