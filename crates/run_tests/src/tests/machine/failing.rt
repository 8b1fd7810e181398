//! Short runs, of whose stores each read and each write fails in turn, and what is printed of them, as an independent checker made it.

pub const FAILING: &str = "\
run: a page is evicted and read back
turns: 0
stores: reads writes
trace: trace 1 512 1 1; 0 map 0 0 2 fixed write; 0 store 0 0 5; 0 evict 0 0; 0 evict 0 0; 0 sync 0 1; 0 load 0 0; end
report: 0 0 s0 answer 0 done; 1 0 s0+f take 0 0 0 2 2 0; 2 0 s0 answer 1 done miss 0; 3 0 s0+f answer 2 written; 4 0 \
s0 answer 3 clean; 5 0 s0 answer 4 clean; 6 0 s0+f take 0 0 0 2 2 0; 7 0 s0 answer 5 value 5 miss 0; tiles 1 0 0 0; \
promotions 0; demotions 0; preemptions 0; images 0 2; frames 511 0 1; end

run: the read for a store fails
turns: 0
stores: reads 1 writes
trace: trace 1 512 1 1; 0 map 0 0 2 fixed write; 0 store 0 0 5; 0 evict 0 0; 0 evict 0 0; 0 sync 0 1; 0 load 0 0; end
report: 0 0 s0 answer 0 done; 1 0 s0+f take 0 0 0 2 2 0; 2 0 s0 failed 0 read 1; 3 0 s0+f give 0 0; 4 0 s0 answer 1 \
storefault 0 1; 5 0 s0 answer 2 clean; 6 0 s0 answer 3 clean; 7 0 s0 answer 4 clean; 8 0 s0+f take 0 0 0 2 2 0; 9 0 s0 \
answer 5 value 0 miss 0; tiles 1 0 0 0; promotions 0; demotions 0; preemptions 0; images 0 1; frames 511 0 1; end

run: an evicted page can't be read back
turns: 0
stores: reads 2 writes
trace: trace 1 512 1 1; 0 map 0 0 2 fixed write; 0 store 0 0 5; 0 evict 0 0; 0 evict 0 0; 0 sync 0 1; 0 load 0 0; end
report: 0 0 s0 answer 0 done; 1 0 s0+f take 0 0 0 2 2 0; 2 0 s0 answer 1 done miss 0; 3 0 s0+f answer 2 written; 4 0 \
s0 answer 3 clean; 5 0 s0 answer 4 clean; 6 0 s0+f take 0 0 0 2 2 0; 7 0 s0 failed 0 read 1; 8 0 s0+f give 0 0; 9 0 s0 \
answer 5 storefault 0 1; tiles 0 0 0 0; promotions 0; demotions 0; preemptions 0; images 0 1; frames 512 0 0; end

run: a page can't be evicted, and then it is written
turns: 0
stores: reads writes 1
trace: trace 1 512 1 1; 0 map 0 0 2 fixed write; 0 store 0 0 5; 0 evict 0 0; 0 evict 0 0; 0 sync 0 1; 0 load 0 0; end
report: 0 0 s0 answer 0 done; 1 0 s0+f take 0 0 0 2 2 0; 2 0 s0 answer 1 done miss 0; 3 0 s0 failed 0 write 1; 4 0 s0 \
answer 2 storefault 0 1; 5 0 s0+f answer 3 written; 6 0 s0 answer 4 clean; 7 0 s0+f take 0 0 0 2 2 0; 8 0 s0 answer 5 \
value 5 miss 0; tiles 1 0 0 0; promotions 0; demotions 0; preemptions 0; images 0 2; frames 511 0 1; end

run: the read for a load fails, and the next one doesn't
turns: 0
stores: reads 1 writes
trace: trace 1 512 1 1; 0 map 0 0 8 fixed write; 0 load 0 0; 0 load 0 0; end
report: 0 0 s0 answer 0 done; 1 0 s0+f take 0 0 0 8 8 0; 2 0 s0 failed 0 read 1; 3 0 s0+f give 0 0; 4 0 s0 answer 1 \
storefault 0 1; 5 0 s0+f take 0 0 0 8 8 0; 6 0 s0 answer 2 value 0 miss 0; tiles 1 0 0 0; promotions 0; demotions 0; \
preemptions 0; images 0 1; frames 504 7 1; end

run: a page is stored to again where the first read failed
turns: 0
stores: reads 1 writes
trace: trace 1 512 1 1; 0 map 0 0 1 fixed write; 0 store 0 0 9; 0 sync 0 0; 0 store 0 0 9; 0 sync 0 0; 0 store 0 0 9; \
0 sync 0 0; 0 evict 0 0; end
report: 0 0 s0 answer 0 done; 1 0 s0+f take 0 0 0 1 1 0; 2 0 s0 failed 0 read 1; 3 0 s0+f give 0 0; 4 0 s0 answer 1 \
storefault 0 1; 5 0 s0 answer 2 clean; 6 0 s0+f take 0 0 0 1 1 0; 7 0 s0 answer 3 done miss 0; 8 0 s0 answer 4 \
written; 9 0 s0 answer 5 done miss 0; 10 0 s0 answer 6 written; 11 0 s0+f answer 7 clean; tiles 0 0 0 0; promotions 0; \
demotions 0; preemptions 0; images 0 2; frames 512 0 0; end

run: the first sync fails
turns: 0
stores: reads writes 1
trace: trace 1 512 1 1; 0 map 0 0 1 fixed write; 0 store 0 0 9; 0 sync 0 0; 0 store 0 0 9; 0 sync 0 0; 0 store 0 0 9; \
0 sync 0 0; 0 evict 0 0; end
report: 0 0 s0 answer 0 done; 1 0 s0+f take 0 0 0 1 1 0; 2 0 s0 answer 1 done miss 0; 3 0 s0 failed 0 write 1; 4 0 s0 \
answer 2 storefault 0 1; 5 0 s0 answer 3 done hit 0; 6 0 s0 answer 4 written; 7 0 s0 answer 5 done miss 0; 8 0 s0 \
answer 6 written; 9 0 s0+f answer 7 clean; tiles 0 0 0 0; promotions 0; demotions 0; preemptions 0; images 1 2; frames \
512 0 0; end

run: the second sync fails
turns: 0
stores: reads writes 2
trace: trace 1 512 1 1; 0 map 0 0 1 fixed write; 0 store 0 0 9; 0 sync 0 0; 0 store 0 0 9; 0 sync 0 0; 0 store 0 0 9; \
0 sync 0 0; 0 evict 0 0; end
report: 0 0 s0 answer 0 done; 1 0 s0+f take 0 0 0 1 1 0; 2 0 s0 answer 1 done miss 0; 3 0 s0 answer 2 written; 4 0 s0 \
answer 3 done miss 0; 5 0 s0 failed 0 write 1; 6 0 s0 answer 4 storefault 0 1; 7 0 s0 answer 5 done hit 0; 8 0 s0 \
answer 6 written; 9 0 s0+f answer 7 clean; tiles 0 0 0 0; promotions 0; demotions 0; preemptions 0; images 1 2; frames \
512 0 0; end

run: the third sync fails, and the evict writes
turns: 0
stores: reads writes 3
trace: trace 1 512 1 1; 0 map 0 0 1 fixed write; 0 store 0 0 9; 0 sync 0 0; 0 store 0 0 9; 0 sync 0 0; 0 store 0 0 9; \
0 sync 0 0; 0 evict 0 0; end
report: 0 0 s0 answer 0 done; 1 0 s0+f take 0 0 0 1 1 0; 2 0 s0 answer 1 done miss 0; 3 0 s0 answer 2 written; 4 0 s0 \
answer 3 done miss 0; 5 0 s0 answer 4 written; 6 0 s0 answer 5 done miss 0; 7 0 s0 failed 0 write 1; 8 0 s0 answer 6 \
storefault 0 1; 9 0 s0+f answer 7 written; tiles 0 0 0 0; promotions 0; demotions 0; preemptions 0; images 0 3; frames \
512 0 0; end

run: a fourth write would fail
turns: 0
stores: reads writes 4
trace: trace 1 512 1 1; 0 map 0 0 1 fixed write; 0 store 0 0 9; 0 sync 0 0; 0 store 0 0 9; 0 sync 0 0; 0 store 0 0 9; \
0 sync 0 0; 0 evict 0 0; end
report: 0 0 s0 answer 0 done; 1 0 s0+f take 0 0 0 1 1 0; 2 0 s0 answer 1 done miss 0; 3 0 s0 answer 2 written; 4 0 s0 \
answer 3 done miss 0; 5 0 s0 answer 4 written; 6 0 s0 answer 5 done miss 0; 7 0 s0 answer 6 written; 8 0 s0+f answer 7 \
clean; tiles 0 0 0 0; promotions 0; demotions 0; preemptions 0; images 0 3; frames 512 0 0; end

run: of two pages one has the slot
turns: 0
stores: slot reads writes
trace: trace 1 512 1 1; 0 map 0 0 2 fixed write; 0 store 0 0 5; 0 store 0 8192 6; 0 sync 0 0; 0 sync 0 1; 0 sync 0 0; \
end
report: 0 0 s0 answer 0 done; 1 0 s0+f take 0 0 0 2 2 0; 2 0 s0 answer 1 done miss 0; 3 0 s0+f take 1 1 0 2 2 0; 4 0 \
s0 answer 2 done miss 0; 5 0 s0 answer 3 written; 6 0 s0 failed 1 write 1; 7 0 s0 answer 4 storefault 0 1; 8 0 s0 \
answer 5 clean; tiles 2 0 0 0; promotions 0; demotions 0; preemptions 0; images 0 2; frames 510 0 2; end

run: of two pages one has the slot, whose read would fail
turns: 0
stores: slot reads 1 writes
trace: trace 1 512 1 1; 0 map 0 0 2 fixed write; 0 store 0 0 5; 0 store 0 8192 6; 0 sync 0 0; 0 sync 0 1; 0 sync 0 0; \
end
report: 0 0 s0 answer 0 done; 1 0 s0+f take 0 0 0 2 2 0; 2 0 s0 answer 1 done miss 0; 3 0 s0+f take 1 1 0 2 2 0; 4 0 \
s0 answer 2 done miss 0; 5 0 s0 answer 3 written; 6 0 s0 failed 1 write 1; 7 0 s0 answer 4 storefault 0 1; 8 0 s0 \
answer 5 clean; tiles 2 0 0 0; promotions 0; demotions 0; preemptions 0; images 0 2; frames 510 0 2; end

run: the write to the slot fails, and the other page has it
turns: 0
stores: slot reads writes 1
trace: trace 1 512 1 1; 0 map 0 0 2 fixed write; 0 store 0 0 5; 0 store 0 8192 6; 0 sync 0 0; 0 sync 0 1; 0 sync 0 0; \
end
report: 0 0 s0 answer 0 done; 1 0 s0+f take 0 0 0 2 2 0; 2 0 s0 answer 1 done miss 0; 3 0 s0+f take 1 1 0 2 2 0; 4 0 \
s0 answer 2 done miss 0; 5 0 s0 failed 0 write 1; 6 0 s0 answer 3 storefault 0 1; 7 0 s0 answer 4 written; 8 0 s0 \
failed 0 write 2; 9 0 s0 answer 5 storefault 0 2; tiles 2 0 0 0; promotions 0; demotions 0; preemptions 0; images 0 2; \
frames 510 0 2; end

run: of two pages one has the slot, and a second write would fail
turns: 0
stores: slot reads writes 2
trace: trace 1 512 1 1; 0 map 0 0 2 fixed write; 0 store 0 0 5; 0 store 0 8192 6; 0 sync 0 0; 0 sync 0 1; 0 sync 0 0; \
end
report: 0 0 s0 answer 0 done; 1 0 s0+f take 0 0 0 2 2 0; 2 0 s0 answer 1 done miss 0; 3 0 s0+f take 1 1 0 2 2 0; 4 0 \
s0 answer 2 done miss 0; 5 0 s0 answer 3 written; 6 0 s0 failed 1 write 1; 7 0 s0 answer 4 storefault 0 1; 8 0 s0 \
answer 5 clean; tiles 2 0 0 0; promotions 0; demotions 0; preemptions 0; images 0 2; frames 510 0 2; end

run: the slot is free again, and the other page has it
turns: 0
stores: slot reads writes
trace: trace 1 512 1 1; 0 map 0 0 2 fixed write; 0 store 0 0 5; 0 store 0 8192 6; 0 sync 0 0; 0 sync 0 1; 0 sync 0 0; \
0 unmap 0 0; 0 map 0 0 2 fixed write; 0 store 0 8192 6; 0 sync 0 1; end
report: 0 0 s0 answer 0 done; 1 0 s0+f take 0 0 0 2 2 0; 2 0 s0 answer 1 done miss 0; 3 0 s0+f take 1 1 0 2 2 0; 4 0 \
s0 answer 2 done miss 0; 5 0 s0 answer 3 written; 6 0 s0 failed 1 write 1; 7 0 s0 answer 4 storefault 0 1; 8 0 s0 \
answer 5 clean; 9 0 s0+f clear 0 2; 10 0 s0 answer 6 done; 11 0 s0 answer 7 done; 12 0 s0+f take 1 0 0 2 2 0; 13 0 s0 \
answer 8 done miss 0; 14 0 s0 answer 9 written; tiles 1 0 0 0; promotions 0; demotions 0; preemptions 0; images 0 3; \
frames 511 0 1; end

run: the slot that the other page has is free again
turns: 0
stores: slot reads writes 1
trace: trace 1 512 1 1; 0 map 0 0 2 fixed write; 0 store 0 0 5; 0 store 0 8192 6; 0 sync 0 0; 0 sync 0 1; 0 sync 0 0; \
0 unmap 0 0; 0 map 0 0 2 fixed write; 0 store 0 8192 6; 0 sync 0 1; end
report: 0 0 s0 answer 0 done; 1 0 s0+f take 0 0 0 2 2 0; 2 0 s0 answer 1 done miss 0; 3 0 s0+f take 1 1 0 2 2 0; 4 0 \
s0 answer 2 done miss 0; 5 0 s0 failed 0 write 1; 6 0 s0 answer 3 storefault 0 1; 7 0 s0 answer 4 written; 8 0 s0 \
failed 0 write 2; 9 0 s0 answer 5 storefault 0 2; 10 0 s0+f clear 0 2; 11 0 s0 answer 6 done; 12 0 s0 answer 7 done; \
13 0 s0+f take 1 0 0 2 2 0; 14 0 s0 answer 8 done miss 0; 15 0 s0 answer 9 written; tiles 1 0 0 0; promotions 0; \
demotions 0; preemptions 0; images 0 3; frames 511 0 1; end

run: the slot is free again, and the write to it fails
turns: 0
stores: slot reads writes 2
trace: trace 1 512 1 1; 0 map 0 0 2 fixed write; 0 store 0 0 5; 0 store 0 8192 6; 0 sync 0 0; 0 sync 0 1; 0 sync 0 0; \
0 unmap 0 0; 0 map 0 0 2 fixed write; 0 store 0 8192 6; 0 sync 0 1; end
report: 0 0 s0 answer 0 done; 1 0 s0+f take 0 0 0 2 2 0; 2 0 s0 answer 1 done miss 0; 3 0 s0+f take 1 1 0 2 2 0; 4 0 \
s0 answer 2 done miss 0; 5 0 s0 answer 3 written; 6 0 s0 failed 1 write 1; 7 0 s0 answer 4 storefault 0 1; 8 0 s0 \
answer 5 clean; 9 0 s0+f clear 0 2; 10 0 s0 answer 6 done; 11 0 s0 answer 7 done; 12 0 s0+f take 1 0 0 2 2 0; 13 0 s0 \
answer 8 done miss 0; 14 0 s0 failed 1 write 2; 15 0 s0 answer 9 storefault 0 2; tiles 1 0 0 0; promotions 0; \
demotions 0; preemptions 0; images 0 3; frames 511 0 1; end

run: a page is read back from its slot, and the other can't be evicted
turns: 0
stores: slot reads writes
trace: trace 1 512 1 1; 0 map 0 0 2 fixed write; 0 store 0 0 5; 0 evict 0 0; 0 store 0 8192 6; 0 evict 0 1; 0 load 0 \
0; 0 sync 0 1; end
report: 0 0 s0 answer 0 done; 1 0 s0+f take 0 0 0 2 2 0; 2 0 s0 answer 1 done miss 0; 3 0 s0+f answer 2 written; 4 0 \
s0+f take 1 0 0 2 2 0; 5 0 s0 answer 3 done miss 0; 6 0 s0 failed 1 write 1; 7 0 s0 answer 4 storefault 0 1; 8 0 s0+f \
take 0 1 0 2 2 0; 9 0 s0 answer 5 value 5 miss 0; 10 0 s0 failed 1 write 2; 11 0 s0 answer 6 storefault 0 2; tiles 2 0 \
0 0; promotions 0; demotions 0; preemptions 0; images 0 3; frames 510 0 2; end

run: a page can't be read back from its slot
turns: 0
stores: slot reads 1 writes
trace: trace 1 512 1 1; 0 map 0 0 2 fixed write; 0 store 0 0 5; 0 evict 0 0; 0 store 0 8192 6; 0 evict 0 1; 0 load 0 \
0; 0 sync 0 1; end
report: 0 0 s0 answer 0 done; 1 0 s0+f take 0 0 0 2 2 0; 2 0 s0 answer 1 done miss 0; 3 0 s0+f answer 2 written; 4 0 \
s0+f take 1 0 0 2 2 0; 5 0 s0 answer 3 done miss 0; 6 0 s0 failed 1 write 1; 7 0 s0 answer 4 storefault 0 1; 8 0 s0+f \
take 0 1 0 2 2 0; 9 0 s0 failed 0 read 2; 10 0 s0+f give 0 1; 11 0 s0 answer 5 storefault 0 2; 12 0 s0 failed 1 write \
3; 13 0 s0 answer 6 storefault 0 3; tiles 1 0 0 0; promotions 0; demotions 0; preemptions 0; images 0 2; frames 511 0 \
1; end";
